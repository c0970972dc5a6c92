// The exports of the doors of a frame, crates/c_api_frame. Each crate of exports is an object file of its own: the frame calls the stages that
// other doors call, and in one object with them the compiler would no longer put a stage inside its door, which costs that door time.
#![tactic(auto)]

ghost use Rattle.std.specs.Prelude.{◌≡◌};
ghost use Rattle.spec_tables.specs.Codebook.{lsp_rows};
ghost use Rattle.c_api.specs.Lent.{lent};
ghost use Rattle.frame.specs.Coder.{new_coder};
ghost use Rattle.frame.specs.Frame.{code_frame};
ghost use Rattle.c_api_frame.specs.Frame.{coder_of, lags, factors};

#[unsafe(no_mangle)]
pub extern "C" fn g7231_bare_new_coder(
    set: &mut [f32; 10],
    lines: &mut [f32; 10],
    x_mem: &mut [f32; 10],
    f_mem: &mut [f32; 10],
    weighted: &mut [f32; 145],
) -> u32
    ensures status { result ≡ 0 }
    ensures resting { set.new ≡ new_coder.set }
    ensures lines { lines.new ≡ new_coder.lines }
    ensures inputs { x_mem.new ≡ new_coder.x_mem }
    ensures outputs { f_mem.new ≡ new_coder.f_mem }
    ensures speech { weighted.new ≡ new_coder.weighted }
{
    c_api_frame::g7231_bare_new_coder(set, lines, x_mem, f_mem, weighted)
}

#[unsafe(no_mangle)]
pub extern "C" fn g7231_bare_code_frame(
    set: &mut [f32; 10],
    lines: &mut [f32; 10],
    x_mem: &mut [f32; 10],
    f_mem: &mut [f32; 10],
    weighted: &mut [f32; 145],
    samples: &[i16],
    spacing_hz: f32,
    index: &mut u32,
    pitch: &mut [u32; 2],
    lag: &mut [u32; 4],
    factor: &mut [f32; 4],
    a: &mut [f32; 44],
) -> u32
    ensures status { result ≡ (code_frame lsp_rows (coder_of set.old lines.old x_mem.old f_mem.old weighted.old) samples.now spacing_hz).status }
    ensures decoded { set.new ≡ lent result set.old (code_frame lsp_rows (coder_of set.old lines.old x_mem.old f_mem.old weighted.old) samples.now spacing_hz).coder.set }
    ensures lines { lines.new ≡ lent result lines.old (code_frame lsp_rows (coder_of set.old lines.old x_mem.old f_mem.old weighted.old) samples.now spacing_hz).coder.lines }
    ensures inputs { x_mem.new ≡ lent result x_mem.old (code_frame lsp_rows (coder_of set.old lines.old x_mem.old f_mem.old weighted.old) samples.now spacing_hz).coder.x_mem }
    ensures outputs { f_mem.new ≡ lent result f_mem.old (code_frame lsp_rows (coder_of set.old lines.old x_mem.old f_mem.old weighted.old) samples.now spacing_hz).coder.f_mem }
    ensures speech { weighted.new ≡ lent result weighted.old (code_frame lsp_rows (coder_of set.old lines.old x_mem.old f_mem.old weighted.old) samples.now spacing_hz).coder.weighted }
    ensures index { index.new ≡ lent result index.old (code_frame lsp_rows (coder_of set.old lines.old x_mem.old f_mem.old weighted.old) samples.now spacing_hz).index }
    ensures pitch { pitch.new ≡ lent result pitch.old (code_frame lsp_rows (coder_of set.old lines.old x_mem.old f_mem.old weighted.old) samples.now spacing_hz).pitch }
    ensures lags { lag.new ≡ lent result lag.old (lags (code_frame lsp_rows (coder_of set.old lines.old x_mem.old f_mem.old weighted.old) samples.now spacing_hz).shaping) }
    ensures factors { factor.new ≡ lent result factor.old (factors (code_frame lsp_rows (coder_of set.old lines.old x_mem.old f_mem.old weighted.old) samples.now spacing_hz).shaping) }
    ensures filters { a.new ≡ lent result a.old (code_frame lsp_rows (coder_of set.old lines.old x_mem.old f_mem.old weighted.old) samples.now spacing_hz).a }
{
    c_api_frame::g7231_bare_code_frame(
        set, lines, x_mem, f_mem, weighted, samples, spacing_hz, index, pitch, lag, factor, a,
    )
}
