// The combined filter's cases of request E3: a history that counts, so that each place is told from the others, and three memories
// that differ.
use crate::lists;
use combined::{Combined, CombinedMem};
use float::status::Refusal;
use std::array;

// The unit impulse through a filter with no prediction and no weighting, whose history counts: 1, 2, .., 145; factor 0.25.
fn over_history(lag: u32) -> Result<Combined, Refusal> {
    let mut input = [0.0; 60];
    input[0] = 1.0;
    let mut aq = [0.0; 11];
    aq[0] = 1.0;
    let none = [0.0; 10];
    let mem = CombinedMem {
        syn: none,
        wz: none,
        wp: none,
        p_hist: array::from_fn(|k| f32::from(k as u8 + 1)),
        limit: 142,
    };
    combined::run_combined(mem, input, aq, none, none, lag, 0.25)
}

// A list's first patterns, and all of it by its hash.
fn is_list(xs: &[f32], first: &[u32], hash: u64) -> bool {
    lists::starts(xs, first) && lists::hash_of(xs) == hash
}

// The history that counts, sixty inputs later: 61 to 145, the impulse, and zeros.
fn counted_on(p_hist: &[f32; 145]) -> bool {
    lists::starts(&p_hist[84..], &[0x4311_0000, 0x3f80_0000, 0])
        && float::same_bits(p_hist[144], 0)
        && is_list(p_hist, &[0x4274_0000], 0xf9a6_a75e_b36b_176f)
}

// The outputs at a lag, by the first four and the hash, and the history afterwards.
fn echoes(lag: u32, first: [u32; 4], hash: u64) -> bool {
    over_history(lag).is_ok_and(|answer| is_list(&answer.out, &first, hash)
        && counted_on(&answer.mem.p_hist))
}

// Lag 145 reads the history from its oldest place on: 1 − 1 / 4, −2 / 4, −3 / 4, −4 / 4, ..
pub fn oldest_input() -> bool {
    echoes(
        145,
        [0x3f40_0000, 0xbf00_0000, 0xbf40_0000, 0xbf80_0000],
        0xdc19_8478_c4ef_1d7b,
    )
}

// Lag 85 reads it from place 60 on: 1 − 61 / 4, −62 / 4, −63 / 4, −64 / 4, ..
pub fn input_at_60() -> bool {
    echoes(
        85,
        [0xc164_0000, 0xc178_0000, 0xc17c_0000, 0xc180_0000],
        0xa513_c758_409c_d095,
    )
}

// A memory after sixty samples that fall by half and change sign: 2^-60, −2^-59, 2^-58, ..
fn fallen(memory: &[f32; 10]) -> bool {
    is_list(
        memory,
        &[0x2180_0000, 0xa200_0000, 0x2280_0000],
        0xca82_0a99_b817_3c90,
    )
}

// Outputs of -3, 0.875, -0.28125, 0.1015625, .., which the history takes in.
fn three_memories_read(answer: &Combined) -> bool {
    let first = [0xc040_0000, 0x3f60_0000, 0xbe90_0000, 0x3dd0_0000];
    let mem = &answer.mem;
    is_list(&answer.out, &first, 0x2091_a929_4ba8_dd4d)
        && lists::starts(&mem.p_hist[85..], &first[..2])
        && lists::hash_of(&mem.p_hist) == 0xd9d9_1a8a_c8d6_f27d
        && fallen(&mem.syn)
        && fallen(&mem.wz)
        && fallen(&mem.wp)
}

// Memories of 1 to 10, 11 to 20 and 21 to 30, and no input: each is read for itself, or the outputs are others.
pub fn three_memories() -> bool {
    let mem = CombinedMem {
        syn: [1.0, 2.0, 3.0, 4.0, 5.0, 6.0, 7.0, 8.0, 9.0, 10.0],
        wz: [11.0, 12.0, 13.0, 14.0, 15.0, 16.0, 17.0, 18.0, 19.0, 20.0],
        wp: [21.0, 22.0, 23.0, 24.0, 25.0, 26.0, 27.0, 28.0, 29.0, 30.0],
        p_hist: [0.0; 145],
        limit: 142,
    };
    let mut aq = [0.0; 11];
    aq[0] = 1.0;
    aq[1] = 0.5;
    let mut taps = [0.0; 10];
    taps[0] = 0.25;
    combined::run_combined(mem, [0.0; 60], aq, taps, taps, 18, 0.0).is_ok_and(
        |answer| three_memories_read(&answer),
    )
}
