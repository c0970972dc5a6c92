// What is lent, and whether it holds what it should. No value here is a NaN, and none but a new coder's a zero.
use float::status::Refusal;

// What stands in a lent buffer before the call: no operation here answers it.
pub const MARK: f32 = 77.0;

pub const MARKS: [f32; 10] = [MARK; 10];

// The door, called once for each refusal's arguments and status, and then so that it is done. Refused, what is lent to it is as it was
// before; done, it is what the operation answers.
pub fn hold<A: Copy, L: Copy + PartialEq, D: Fn(A, &mut L) -> u32, const N: usize>(
    door: D,
    refused: [(A, u32); N],
    done: A,
    before: L,
    answer: Result<L, Refusal>,
) -> bool
    requires { D.IsAlwaysCallable door }
{
    let mut lent = before;
    for (arguments, status) in refused {
        if door(arguments, &mut lent) != status {
            return false;
        }
    }
    (lent == before) & (door(done, &mut lent) == 0) & (answer == Ok(lent))
}

// Ten line frequencies in the tables' units, and others beside them.
pub fn frequencies() -> [f32; 10] {
    [
        2861.0, 3349.0, 6658.0, 8154.0, 12594.0, 15127.0, 20404.0, 22882.0, 25093.0, 27146.0,
    ]
}

pub fn other_frequencies() -> [f32; 10] {
    [
        3131.0, 4721.0, 7690.0, 10806.0, 13872.0, 16495.0, 19752.0, 22260.0, 25484.0, 27718.0,
    ]
}

// Ten cosines that fall, and others.
pub fn cosines() -> [f32; 10] {
    [
        0.95, 0.87, 0.62, 0.5, 0.25, 0.0625, -0.25, -0.5, -0.75, -0.875,
    ]
}

pub fn other_cosines() -> [f32; 10] {
    [0.9, 0.8, 0.7, 0.4, 0.3, 0.1, -0.2, -0.6, -0.7, -0.9]
}

// A set with an infinity in it.
pub fn infinite() -> [f32; 10] {
    let mut set = cosines();
    set[9] = f32::INFINITY;
    set
}

// The eleven coefficients of a filter that has a line set.
pub fn filter() -> [f32; 11] {
    lsp_filter::lsp_to_lpc(cosines()).unwrap_or([MARK; 11])
}
