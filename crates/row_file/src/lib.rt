// A file of code rows, loaded into a buffer of the caller (request E5). The library opens no file: it is lent the bytes.
#![tactic(auto)]

ghost use Rattle.std.specs.Prelude.{◌≡◌, ◌+◌, ◌≤◌, pos, length, IfOk};
ghost use Rattle.float.specs.Answered.{status_of};
ghost use Rattle.spec_tables.specs.Codebook.{neg};
ghost use Rattle.spec_tables.specs.Bounds.{inside, row_bound, rows_pass};
ghost use Rattle.row_file.specs.RowFile.{word, rows_of, wrong_file, load_status, load};
ghost use Rattle.row_file.specs.inner.Numbers.{number_of, numbers_of};

use float::status::Refusal;

// 32 bits, low byte first.
fn word_at(file: &[u8], at: usize) -> u32
    requires { at + 4 ≤ length file.now }
    ensures { result ≡ word file.now at }
{
    u32::from_le_bytes([file[at], file[at + 1], file[at + 2], file[at + 3]])
}

// 16 bits, low byte first, as a number with a sign.
fn number(bytes: [u8; 2]) -> i16
    ensures { result ≡ number_of bytes }
{
    i16::from_le_bytes(bytes)
}

// Two tests side by side, and all numbers in turn with no early end below: so several are tested at once, for speed. docs/BENCH.md has
// the figures.
fn passes(n: i16) -> bool
    ensures { result ≡ inside (neg row_bound) (pos row_bound) n }
{
    (-8192 <= n) & (n <= 8192)
}

// Every number lies within -8,192..8,192. All are looked at: files are right nearly always.
fn all_pass(numbers: &[[u8; 2]]) -> bool
    ensures { result ≡ rows_pass (numbers_of numbers.now) }
{
    let mut passed = true;
    for bytes in numbers {
        passed &= passes(number(*bytes));
    }
    passed
}

// Too long or too short, or a trailer that is another.
fn wrong_file(file: &[u8]) -> bool
    ensures { result ≡ wrong_file file.now }
{
    let len = file.len();
    32768 < len || len < 5128 || word_at(file, len - 8) != 5128 || word_at(file, len - 4) != 2560
}

// The two bytes of each number, behind the notes and before the trailer.
#[tactic(auto, using(crate::proofs::Parts::numbers_read))]
fn numbers_in(file: &[u8]) -> &[[u8; 2]]
    requires { 5128 ≤ length file.now }
    ensures many { length result.now ≡ 2560 }
    ensures numbers { numbers_of result.now ≡ rows_of file.now }
{
    let from = file.len() - 5128;
    let (numbers, _) = file[from..from + 5120].as_chunks::<2>();
    numbers
}

// The file's numbers, or the first refusal due: 1 for the buffer's places, 10 for the file's form, 11 for a number.
#[tactic(auto, using(float::proofs::Refusal::checks), unfolding(crate::specs::RowFile::load_status))]
fn check_file(file: &[u8], room: usize) -> Result<&[[u8; 2]], Refusal>
    ensures status { status_of result ≡ load_status room file.now }
    ensures numbers { IfOk result (λ n. (length n.now ≡ room) × (numbers_of n.now ≡ rows_of file.now)) }
{
    if room != 2560 {
        return Err(Refusal::Length); // before the file is looked at
    }
    if wrong_file(file) {
        return Err(Refusal::FileForm);
    }
    let numbers = numbers_in(file);
    if !all_pass(numbers) {
        return Err(Refusal::FileNumber);
    }
    Ok(numbers)
}

// By an index: of what a zip over `iter_mut` wrote a proof knows no more than the length.
fn store(numbers: &[[u8; 2]], rows: &mut [i16])
    requires { length rows.old ≡ length numbers.now }
    ensures { rows.new ≡ numbers_of numbers.now }
{
    for (i, row) in rows.iter_mut().enumerate() {
        *row = number(numbers[i]);
    }
}

// Loads the rows of a file. Nothing is stored before every number has passed.
pub fn load_rows(file: &[u8], rows: &mut [i16]) -> Result<(), Refusal>
    ensures status { status_of result ≡ (load file.now rows.old).status }
    ensures rows { rows.new ≡ (load file.now rows.old).rows }
{
    let numbers = check_file(file, rows.len())?;
    store(numbers, rows);
    Ok(())
}
