// Files of code rows, in a buffer that has room for one byte more than a file may have.
ghost use Rattle.std.specs.Prelude.{◌≤◌};

use crate::lists;
use float::status::Refusal;
use std::array;

// The rows R of request E5's cases, whose numbers run from -8,192 to 8,192.
pub fn other_rows() -> [i16; 2560] {
    array::from_fn(|i| (i * 7919 % 16385) as i16 - 8192)
}

// A file with so many bytes of notes in front: the notes are bytes of 165.
pub fn written(rows: &[i16; 2560], notes: usize) -> [u8; 32769]
    requires { notes ≤ 27641 }
{
    let mut file = [165; 32769];
    let (numbers, _) = file[notes..notes + 5120].as_chunks_mut::<2>();
    for (bytes, n) in numbers.iter_mut().zip(rows) {
        *bytes = n.to_le_bytes();
    }
    file[notes + 5120..notes + 5128].copy_from_slice(&[8, 20, 0, 0, 0, 10, 0, 0]);
    file
}

// The first of two files, without notes, and the second behind it.
pub fn both(first: [u8; 32769], second: &[u8; 32769]) -> [u8; 32769] {
    let mut file = first;
    file[5128..10256].copy_from_slice(&second[..5128]);
    file
}

// The first so many bytes are refused, with the buffer as it was.
pub fn refused(file: &[u8; 32769], len: usize, why: Refusal) -> bool
    requires { len ≤ 32769 }
{
    let mut rows = [77; 2560];
    row_file::load_rows(&file[..len], &mut rows) == Err(why) && rows == [77; 2560]
}

// The first so many bytes are loaded, with these rows in the buffer.
pub fn holds(file: &[u8; 32769], len: usize, want: &[i16; 2560]) -> bool
    requires { len ≤ 32769 }
{
    let mut rows = [77; 2560];
    row_file::load_rows(&file[..len], &mut rows) == Ok(()) && rows == *want
}

// FNV-1a of a file without notes.
pub fn hash(file: &[u8; 32769]) -> u64 {
    lists::with_bytes(lists::NO_BYTES, &file[..5128])
}
