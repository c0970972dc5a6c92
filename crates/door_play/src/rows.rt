// The doors of code rows of a caller's own. Their files and rows are of few numbers: crates/worked_cases has files of all kinds.
use crate::buffers;
use crate::buffers::MARKS;
use own_rows::RowPlace;
use spec_lsp::quantise::Quantised;

// A file of rows that are all 500, which is 1 and 244 as bytes, low byte first.
fn file() -> [u8; 5128] {
    let mut file = [1; 5128];
    for number in file[..5120].chunks_exact_mut(2) {
        number[0] = 244;
    }
    file[5120..].copy_from_slice(&[8, 20, 0, 0, 0, 10, 0, 0]);
    file
}

// With room for 2,559 numbers the file is not looked at.
fn load_few(file: &[u8]) -> bool {
    let mut few = [77; 2559];
    (c_api_rows::g7231_load_rows(file, &mut few) == 1) & (few == [77; 2559])
}

pub fn load() -> bool {
    let right = file();
    let mut wrong = right;
    wrong[5120] = 9;
    let mut large = right;
    large[1] = 33;
    let all = buffers::hold(
        |file, rows| c_api_rows::g7231_load_rows(&file, rows),
        [(wrong, 10), (large, 11)],
        right,
        [77; 2560],
        Ok([500; 2560]),
    );
    all & load_few(&wrong)
}

pub fn row() -> bool {
    let rows = [500; 2560];
    let want = own_rows::row(&rows, 2, 3);
    let known = RowPlace {
        start: 1548,
        count: 4,
    };
    let held = buffers::hold(
        |(rows, band, index), lent| {
            c_api_rows::g7231_row(rows, band, index, &mut lent.start, &mut lent.count)
        },
        [
            ((&rows[..2559], 3, 0), 1),
            ((&rows[..], 3, 0), 2),
            ((&rows[..], 0, 256), 2),
        ],
        (&rows[..], 2, 3),
        RowPlace {
            start: 77,
            count: 78,
        },
        want,
    );
    held & (want == Ok(known))
}

pub fn quantise() -> bool {
    let p = buffers::frequencies();
    let prev = buffers::other_frequencies();
    let bad = buffers::infinite();
    let mut rows = [500; 2560];
    rows[3] = -100;
    buffers::hold(
        |(rows, prev), lent| {
            c_api_rows::g7231_bare_quantise_lsp_freq_in(
                rows,
                &p,
                &prev,
                &mut lent.index,
                &mut lent.set,
            )
        },
        [((&rows[..2559], bad), 1), ((&rows[..], bad), 5)],
        (&rows[..], prev),
        Quantised {
            index: 77,
            set: MARKS,
        },
        own_rows::quantise_lsp_freq_in(&rows, p, prev),
    )
}

pub fn decode() -> bool {
    let prev = buffers::frequencies();
    let bad = buffers::infinite();
    let rows = [500; 2560];
    buffers::hold(
        |(rows, index, prev), set| {
            c_api_rows::g7231_bare_decode_lsp_freq_in(rows, index, &prev, set)
        },
        [
            ((&rows[..2559], 16777216, bad), 1),
            ((&rows[..], 16777216, bad), 9),
            ((&rows[..], 66051, bad), 5),
        ],
        (&rows[..], 66051, prev),
        MARKS,
        own_rows::decode_lsp_freq_in(&rows, 66051, prev),
    )
}
