// Every door beside its operation: called once so that it is done and once so that it is refused. Done, each lent buffer holds
// the operation's answer, and each differs from the others, so that two that were swapped would show; refused, each is as it was.
#![tactic(auto)]

mod buffers;
mod frames;
mod lines;
mod rows;
mod samples;
mod whole;

use tally::Tally;

fn line_doors(tally: &mut Tally<impl Print>) {
    tally.case("resting_set", lines::rest());
    tally.case("lsp_cosines_to_freq", lines::cosines_to_freq());
    tally.case("lsp_freq_to_cosines", lines::freq_to_cosines());
    tally.case("quantise_lsp_freq", lines::quantise());
    tally.case("decode_lsp_freq", lines::decode());
    tally.case("split_lsp_index", lines::split());
    tally.case("combine_lsp_index", lines::combine());
    tally.case("enforce_lsp_stability", lines::stability());
    tally.case("interpolate_lsp", lines::interpolate());
    tally.case("lsp_to_lpc", lines::to_lpc());
    tally.case("lpc_to_lsp", lines::of_lpc());
}

fn sample_doors(tally: &mut Tally<impl Print>) {
    tally.case("lpc_analysis", samples::analysis());
    tally.case("open_loop_pitch", samples::pitch());
    tally.case("harmonic_noise_shaping", samples::shaping());
    tally.case("weighting_taps", frames::taps());
    tally.case("weight_subframe", frames::weight());
    tally.case("new_filter_memory", frames::new_memory());
    tally.case("run_combined", frames::combined());
    tally.case("combined_impulse_response", frames::response());
}

fn frame_doors(tally: &mut Tally<impl Print>) {
    tally.case("new_coder", whole::start());
    tally.case("code_frame", whole::code());
}

fn row_doors(tally: &mut Tally<impl Print>) {
    tally.case("load_rows", rows::load());
    tally.case("row", rows::row());
    tally.case("quantise_lsp_freq_in", rows::quantise());
    tally.case("decode_lsp_freq_in", rows::decode());
    tally.case("code_frame_in", whole::code_in());
}

fn main(rt: HostRuntime) {
    let mut tally = Tally::new(&rt);
    line_doors(&mut tally);
    sample_doors(&mut tally);
    frame_doors(&mut tally);
    row_doors(&mut tally);
    tally.finish();
}
