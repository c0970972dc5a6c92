// The cosine rule at its limits.

pub fn step_is(c: f32, k: u32) -> bool {
    cosine::step(c) == k
}

// Entry 1,302 of the table is a single, so its cosine is met at its own step; below zero at the mirrored one.
pub fn steps_of_an_entry() -> bool {
    let c = 581390144.0 / 1073741824.0;
    step_is(c, 5332992) && step_is(-c, 11444224)
}

// No cosine is at or below a NaN, so it takes the last step.
pub fn step_of_nan() -> bool {
    step_is(f32::NAN, 16777216)
}

pub fn cosine_is(k: u32, w: u32) -> bool {
    float::same_bits(cosine::cosine_single(k), w)
}

// 5 × π / 2^24 rounded to single; with π as a double it would end in d1.
pub fn angle_of_step_5() -> bool {
    float::same_bits(cosine::angle(5), 0x357b_53d2)
}

fn step_of_angle_is(a: f32, k: u32) -> bool {
    !float::exceeds_bound(a, 16.0) && cosine::step_of_angle(a) == k
}

// π / 2^25 is the one angle halfway between two steps: it takes step 0, and the single after it step 1.
pub fn angle_halfway() -> bool {
    step_of_angle_is(float::of_bits(0x33c9_0fdb), 0)
        && step_of_angle_is(float::of_bits(0xb3c9_0fdb), 0)
        && step_of_angle_is(float::of_bits(0x33c9_0fdc), 1)
        && step_of_angle_is(float::of_bits(0x3449_0fdb), 1)
}

// An angle below 2 brings its step back, and 10,680,707 is the last one. Rounded down, the other two would come back as the step before.
pub fn angle_back() -> bool {
    step_of_angle_is(cosine::angle(3), 3)
        && step_of_angle_is(cosine::angle(10680706), 10680706)
        && step_of_angle_is(cosine::angle(10680707), 10680707)
}
