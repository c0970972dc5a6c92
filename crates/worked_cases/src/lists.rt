// Lists of singles, compared whole and by their bits.

// The pattern at a sample of a response that is 1 at sample 0 and −0.25 at sample 18, and +0 elsewhere.
fn bare_pattern(n: usize) -> u32 {
    match n {
        0 => 0x3f80_0000,
        18 => 0xbe80_0000,
        _ => 0,
    }
}

pub fn is_bare_response(out: [f32; 60]) -> bool {
    out.iter()
        .enumerate()
        .all(|(n, x)| float::same_bits(*x, bare_pattern(n)))
}

// Every single of a list has its pattern; a list that is longer is compared as far as the patterns go.
pub fn starts(xs: &[f32], patterns: &[u32]) -> bool {
    xs.iter()
        .zip(patterns)
        .all(|(x, w)| float::same_bits(*x, *w))
}

// The pattern of a finite single; 0 for any other.
fn pattern(x: f32) -> u32 {
    if x.is_finite() { x.to_bits() } else { 0 }
}

// FNV-1a of nothing.
pub const NO_BYTES: u64 = 0xcbf2_9ce4_8422_2325;

// FNV-1a of what a hash is of and further bytes.
pub fn with_bytes(hash: u64, bytes: &[u8]) -> u64 {
    let mut hash = hash;
    for byte in bytes {
        hash = (hash ^ u64::from(*byte)).wrapping_mul(0x100_0000_01b3);
    }
    hash
}

// FNV-1a of the patterns, low byte first.
pub fn hash_of(xs: &[f32]) -> u64 {
    let mut hash = NO_BYTES;
    for x in xs {
        hash = with_bytes(hash, &pattern(*x).to_le_bytes());
    }
    hash
}
