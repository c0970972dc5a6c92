// Frequencies on their way to steps and cosines.
use float::status::Refusal;

// The step of a frequency, which a narrowed cosine does not always tell from the next one.
pub fn step_is(frequency: f32, k: u32) -> bool {
    !float::exceeds_bound(frequency, 65536.0) && cosine::step_of_frequency(frequency) == k
}

// Odd 1024ths lie halfway between two steps, and take the even one.
pub fn halves_are_even() -> bool {
    step_is(1.0 / 1024.0, 0) && step_is(5.0 / 1024.0, 2) && step_is(7.0 / 1024.0, 4)
}

// The singles after 1/1024, before 3/1024 and after it.
pub fn beside_a_half() -> bool {
    step_is(float::of_bits(0x3a80_0001), 1)
        && step_is(float::of_bits(0x3b3f_ffff), 1)
        && step_is(float::of_bits(0x3b40_0001), 2)
}

// The last single below 16,384 lies half a step below it, and takes the quarter circle.
pub fn last_below_the_quarter() -> bool {
    let mut freq = [0.0; 10];
    freq[0] = float::of_bits(0x467f_ffff);
    convert::lsp_freq_to_cosines(freq).is_ok_and(|cosines| float::same_bits(cosines[0], 0))
}

// The cosines of a frequency that stands last, after nine of 0.
fn cosines_of_last(frequency: f32) -> Result<[f32; 10], Refusal> {
    let mut freq = [0.0; 10];
    freq[9] = frequency;
    convert::lsp_freq_to_cosines(freq)
}

// 65,536 is a whole circle, whose cosine is 1.
pub fn taken(frequency: f32) -> bool {
    cosines_of_last(frequency).is_ok_and(|cosines| float::same_bits(cosines[9], 0x3f80_0000))
}

// A refusal comes with no cosines: the ten zeros of its printed line are what the definition has in their place.
pub fn refused(frequency: f32) -> bool {
    cosines_of_last(frequency) == Err(Refusal::OutOfRange)
}
