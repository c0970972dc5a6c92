// The doors of code rows of a caller's own, in a crate and an object file of their own: over lent rows the stages are compiled once more,
// and no other door's code moves. crates/c_api says what a door is.
#![tactic(auto)]

ghost use Rattle.std.specs.Prelude.{◌≡◌};
ghost use Rattle.c_api.specs.Lent.{lent};
ghost use Rattle.c_api_frame.specs.Frame.{coder_of, lags, factors};
ghost use Rattle.row_file.specs.RowFile.{load};
ghost use Rattle.own_rows.specs.Row.{row_place};
ghost use Rattle.own_rows.specs.Own.{quantise_in, decode_in, code_frame_in};

pub fn g7231_load_rows(file: &[u8], rows: &mut [i16]) -> u32
    ensures status { result ≡ (load file.now rows.old).status }
    ensures rows { rows.new ≡ (load file.now rows.old).rows }
{
    match row_file::load_rows(file, rows) {
        Ok(()) => 0,
        Err(refusal) => refusal.number(),
    }
}

pub fn g7231_row(rows: &[i16], band: u32, index: u32, start: &mut usize, count: &mut usize) -> u32
    ensures status { result ≡ (row_place rows.now band index).status }
    ensures start { start.new ≡ lent result start.old (row_place rows.now band index).start }
    ensures count { count.new ≡ lent result count.old (row_place rows.now band index).count }
{
    match own_rows::row(rows, band, index) {
        Ok(place) => {
            *start = place.start;
            *count = place.count;
            0
        }
        Err(refusal) => refusal.number(),
    }
}

#[tactic(auto, using(c_api::proofs::Lent::fills))]
pub fn g7231_bare_quantise_lsp_freq_in(
    rows: &[i16],
    p: &[f32; 10],
    prev: &[f32; 10],
    index: &mut u32,
    set: &mut [f32; 10],
) -> u32
    ensures status { result ≡ (quantise_in rows.now p.now prev.now).status }
    ensures index { index.new ≡ lent result index.old (quantise_in rows.now p.now prev.now).index }
    ensures set { set.new ≡ lent result set.old (quantise_in rows.now p.now prev.now).set }
{
    c_api::store_quantised(own_rows::quantise_lsp_freq_in(rows, *p, *prev), index, set)
}

#[tactic(auto, using(c_api::proofs::Lent::fills))]
pub fn g7231_bare_decode_lsp_freq_in(
    rows: &[i16],
    index: u32,
    prev: &[f32; 10],
    set: &mut [f32; 10],
) -> u32
    ensures status { result ≡ (decode_in rows.now index prev.now).status }
    ensures set { set.new ≡ lent result set.old (decode_in rows.now index prev.now).lines }
{
    c_api::store(own_rows::decode_lsp_freq_in(rows, index, *prev), set)
}

pub fn g7231_bare_code_frame_in(
    rows: &[i16],
    set: &mut [f32; 10],
    lines: &mut [f32; 10],
    x_mem: &mut [f32; 10],
    f_mem: &mut [f32; 10],
    weighted: &mut [f32; 145],
    samples: &[i16],
    spacing_hz: f32,
    index: &mut u32,
    pitch: &mut [u32; 2],
    lag: &mut [u32; 4],
    factor: &mut [f32; 4],
    a: &mut [f32; 44],
) -> u32
    ensures status { result ≡ (code_frame_in rows.now (coder_of set.old lines.old x_mem.old f_mem.old weighted.old) samples.now spacing_hz).status }
    ensures decoded { set.new ≡ lent result set.old (code_frame_in rows.now (coder_of set.old lines.old x_mem.old f_mem.old weighted.old) samples.now spacing_hz).coder.set }
    ensures lines { lines.new ≡ lent result lines.old (code_frame_in rows.now (coder_of set.old lines.old x_mem.old f_mem.old weighted.old) samples.now spacing_hz).coder.lines }
    ensures inputs { x_mem.new ≡ lent result x_mem.old (code_frame_in rows.now (coder_of set.old lines.old x_mem.old f_mem.old weighted.old) samples.now spacing_hz).coder.x_mem }
    ensures outputs { f_mem.new ≡ lent result f_mem.old (code_frame_in rows.now (coder_of set.old lines.old x_mem.old f_mem.old weighted.old) samples.now spacing_hz).coder.f_mem }
    ensures speech { weighted.new ≡ lent result weighted.old (code_frame_in rows.now (coder_of set.old lines.old x_mem.old f_mem.old weighted.old) samples.now spacing_hz).coder.weighted }
    ensures index { index.new ≡ lent result index.old (code_frame_in rows.now (coder_of set.old lines.old x_mem.old f_mem.old weighted.old) samples.now spacing_hz).index }
    ensures pitch { pitch.new ≡ lent result pitch.old (code_frame_in rows.now (coder_of set.old lines.old x_mem.old f_mem.old weighted.old) samples.now spacing_hz).pitch }
    ensures lags { lag.new ≡ lent result lag.old (lags (code_frame_in rows.now (coder_of set.old lines.old x_mem.old f_mem.old weighted.old) samples.now spacing_hz).shaping) }
    ensures factors { factor.new ≡ lent result factor.old (factors (code_frame_in rows.now (coder_of set.old lines.old x_mem.old f_mem.old weighted.old) samples.now spacing_hz).shaping) }
    ensures filters { a.new ≡ lent result a.old (code_frame_in rows.now (coder_of set.old lines.old x_mem.old f_mem.old weighted.old) samples.now spacing_hz).a }
{
    let coder = c_api_frame::coder_from(set, lines, x_mem, f_mem, weighted);
    let answer = own_rows::code_frame_in(rows, coder, samples, spacing_hz);
    c_api_frame::store_frame(
        answer, set, lines, x_mem, f_mem, weighted, index, pitch, lag, factor, a,
    )
}
