// Code rows of a caller's own: request E5's cases.
use crate::{files, frames};
use float::status::Refusal;
use own_rows::RowPlace;
use spec_lsp::quantise::Quantised;
use spec_lsp::resting::resting_set;

// ---- files

pub fn built_in_file() -> bool {
    let rows = spec_tables::lsp_rows();
    let file = files::written(rows, 0);
    file[0] == 0
        && file[5..9] == [0, 0xf2, 0xfe, 0xa4]
        && files::hash(&file) == 0x1784_2c97_1b3f_a02a
        && files::holds(&file, 5128, rows)
}

pub fn behind_notes() -> bool {
    let rows = spec_tables::lsp_rows();
    files::holds(&files::written(rows, 27640), 32768, rows)
        && files::holds(&files::written(rows, 3), 5131, rows)
}

pub fn notes_too_long() -> bool {
    files::refused(
        &files::written(spec_tables::lsp_rows(), 27641),
        32769,
        Refusal::FileForm,
    )
}

pub fn last_file_counts() -> bool {
    let other = files::other_rows();
    let file = files::both(
        files::written(spec_tables::lsp_rows(), 0),
        &files::written(&other, 0),
    );
    files::holds(&file, 10256, &other)
}

// Less its first byte, which leaves 5,127; and with a byte behind it.
pub fn cut_and_lengthened() -> bool {
    let mut file = files::written(spec_tables::lsp_rows(), 0);
    let cut = files::refused(&file, 5127, Refusal::FileForm);
    file[5128] = 10;
    cut && files::refused(&file, 5129, Refusal::FileForm)
}

// The built-in rows' file with another trailer.
fn with_trailer(trailer: [u8; 8]) -> [u8; 32769] {
    let mut file = files::written(spec_tables::lsp_rows(), 0);
    file[5120..5128].copy_from_slice(&trailer);
    file
}

// The count before the distance; and both with the high byte first.
pub fn other_trailers() -> bool {
    let swapped = with_trailer([0, 10, 0, 0, 8, 20, 0, 0]);
    let reversed = with_trailer([0, 0, 20, 8, 0, 0, 10, 0]);
    files::refused(&swapped, 5128, Refusal::FileForm)
        && files::refused(&reversed, 5128, Refusal::FileForm)
}

pub fn other_file() -> bool {
    let rows = files::other_rows();
    let file = files::written(&rows, 0);
    files::hash(&file) == 0x5d0a_77e2_3720_8297 && files::holds(&file, 5128, &rows)
}

// R with another last number.
fn ending_with(last: i16) -> [i16; 2560] {
    let mut rows = files::other_rows();
    rows[2559] = last;
    rows
}

pub fn taken_last(last: i16) -> bool {
    let rows = ending_with(last);
    files::holds(&files::written(&rows, 0), 5128, &rows)
}

pub fn refused_last(last: i16) -> bool {
    files::refused(
        &files::written(&ending_with(last), 0),
        5128,
        Refusal::FileNumber,
    )
}

// Another trailer and a number out of bounds.
pub fn form_first() -> bool {
    let mut file = files::written(&ending_with(8193), 0);
    file[5120] = 9;
    files::refused(&file, 5128, Refusal::FileForm)
}

// A buffer of 2,559 places, whatever the file: nothing, or one that is refused with 11.
pub fn buffer_first() -> bool {
    let mut rows = [77; 2559];
    let file = files::written(&ending_with(8193), 0);
    row_file::load_rows(&[], &mut rows) == Err(Refusal::Length)
        && row_file::load_rows(&file, &mut rows) == Err(Refusal::Length)
        && rows == [77; 2559]
}

// ---- rows

// A row of R stands at its place, and is these numbers.
fn stands(band: u32, index: u32, start: usize, row: &[i16]) -> bool {
    let rows = files::other_rows();
    let place = RowPlace {
        start,
        count: row.len(),
    };
    own_rows::row(&rows, band, index) == Ok(place) && own_rows::row_part(&rows, band, index) == row
}

pub fn first_row() -> bool {
    stands(0, 0, 0, &[-8192, -273, 7646])
}

pub fn last_of_band_1() -> bool {
    stands(1, 255, 1533, &[6735, -1731, 6188])
}

pub fn last_of_band_2() -> bool {
    stands(2, 255, 2556, &[-2703, 5216, -3250, 4669])
}

// Refused, and its part is empty.
fn nowhere(rows: &[i16], band: u32, index: u32, why: Refusal) -> bool {
    own_rows::row(rows, band, index) == Err(why) && own_rows::row_part(rows, band, index).is_empty()
}

pub fn no_such_row(band: u32, index: u32) -> bool {
    nowhere(&files::other_rows(), band, index, Refusal::Choice)
}

// 1 comes before 2.
pub fn no_row_of_2559() -> bool {
    nowhere(&[1; 2559], 3, 256, Refusal::Length)
}

// ---- over lent rows

fn given() -> [f32; 10] {
    [
        2861.0, 3349.0, 6658.0, 8154.0, 12594.0, 15127.0, 20404.0, 22882.0, 25093.0, 27146.0,
    ]
}

// Quantised over R, and the index decoded over R.
pub fn quantised() -> bool {
    let rows = files::other_rows();
    let prev = resting_set();
    let index = 16182995;
    let set = [
        6101.0, -775.0, 10113.0, 6912.0, 17897.0, 12054.0, 16030.0, 26457.0, 21215.0, 31368.0,
    ];
    own_rows::quantise_lsp_freq_in(&rows, given(), prev) == Ok(Quantised { index, set })
        && own_rows::decode_lsp_freq_in(&rows, index, prev) == Ok(set)
}

// The built-in rows, lent: the same index, and the same set from it.
pub fn built_in_lent() -> bool {
    let rows = spec_tables::lsp_rows();
    let prev = resting_set();
    let index = 66051;
    own_rows::quantise_lsp_freq_in(rows, given(), prev).is_ok_and(|sent| sent.index == index)
        && own_rows::decode_lsp_freq_in(rows, index, prev).is_ok_and(|set| set[0] == 2861.0
            && set[9] == 27146.0)
}

// The resting set with a NaN at its end.
fn with_a_nan() -> [f32; 10] {
    let mut set = resting_set();
    set[9] = f32::NAN;
    set
}

// With 2,559 numbers nothing else is looked at: not a set with a NaN, not a longer word, not 359 samples. The line's zeros are
// the definition's: an `Err` has neither an index nor a set.
pub fn length_first() -> bool {
    let rows = [1; 2559];
    let unfit = with_a_nan();
    own_rows::quantise_lsp_freq_in(&rows, unfit, unfit) == Err(Refusal::Length)
        && own_rows::decode_lsp_freq_in(&rows, 16777216, unfit) == Err(Refusal::Length)
}

// And then as over the built-in ones: 5 before 6, and 9 before both.
pub fn refused_in_order() -> bool {
    let rows = files::other_rows();
    let unfit = with_a_nan();
    let large = [70000.0; 10];
    own_rows::quantise_lsp_freq_in(&rows, large, unfit) == Err(Refusal::NotFinite)
        && own_rows::quantise_lsp_freq_in(&rows, large, resting_set()) == Err(Refusal::OutOfRange)
        && own_rows::decode_lsp_freq_in(&rows, 16777216, unfit) == Err(Refusal::LongIndex)
}

// A frame over the built-in rows lent, and over R.
pub fn frame_lent() -> bool {
    frames::pulses_over(spec_tables::lsp_rows()) && !frames::pulses_over(&files::other_rows())
}

pub fn frame_refused() -> bool {
    frames::refused_over(&[1; 2559])
}

// A turn over rows of one number, which no load need have passed: the set that index 0 makes.
fn turned(number: i16, prev: [f32; 10]) -> Result<[f32; 10], Refusal> {
    own_rows::decode_lsp_freq_in(&[number; 2560], 0, prev)
}

// Over rows of 16,384 the second set is 22,528 off.
fn off_at_16384() -> Result<bool, Refusal> {
    let rest = resting_set();
    let once = turned(16384, rest)?;
    let twice = turned(16384, once)?;
    Ok(twice[0] == rest[0] + 22528.0)
}

// Over rows of 32,767 the second exceeds 65,536, and the third index is refused.
fn refused_at_32767() -> Result<bool, Refusal> {
    let once = turned(32767, resting_set())?;
    let twice = turned(32767, once)?;
    Ok(twice[9] > 65536.0 && turned(32767, twice) == Err(Refusal::OutOfRange))
}

// Why a load has its bounds. Over rows of 8,192 a set comes no further from the resting set than 16,384.
pub fn beyond_the_check() -> bool {
    off_at_16384() == Ok(true) && refused_at_32767() == Ok(true)
}
