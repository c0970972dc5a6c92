// Tries a line under a loss pattern (request E7): reads the pattern from standard input, and prints for each of its lines the line's
// number, the arrivals in a row, and how far the two ends lie apart. All of what it prints is `trial::report` of what it has read.
#![tactic(auto)]

// Standard input, by its number. It is read by the kit's `io`: the library's readers fill no buffer up to the end of the input.
const STDIN_FILENO: i32 = 0;

// 10,000 lines of nine bytes, and one byte more, which decides whether there is a further line: nothing after these is printed of, so
// that an input without end is no reason to wait.
const MOST: usize = 90001;

// A write that fails is not told of.
#[tactic(auto, using(trial::proofs::Inside::inside, trial::proofs::Inside::all_of_it))]
fn main(rt: HostRuntime) {
    let mut text = [0; MOST];
    let n = io::read_full(STDIN_FILENO, &mut text);
    let mut out = [0; trial::ROOM];
    let k = trial::report(&text[..n], &mut out);
    let _ = rt.write_all(&out[..k]);
}
