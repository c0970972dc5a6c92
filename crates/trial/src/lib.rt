// A line tried under a loss pattern (request E7): both ends follow the indices of the pattern, and for each line is printed how far
// they lie apart. `report` makes all that the program `losses` prints of all that it has read.
#![tactic(auto)]

ghost use Rattle.std.specs.Prelude.{◌≡◌, ◌≤◌, length, take};
ghost use Rattle.trial_text.specs.Answers.{taken};
ghost use Rattle.trial_print.specs.inner.Put.{Puts};
ghost use Rattle.trial.specs.Losses.{follow as Losses·follow, begin as Losses·begin, losses};

use line::Ends;
use trial_print::Printed;
use trial_text::Entry;

// ---- one line of the pattern

// The sets of both ends, and the arrivals in a row.
#[derive(Clone, Copy)]
pub struct State {
    pub ends: Ends,
    pub arrivals: u32,
}

impl State {
    // Both ends at the resting set.
    fn begin() -> State
        ensures { result ≡ Losses·begin }
    {
        State {
            ends: line::begin(),
            arrivals: 0,
        }
    }

    // The coder's set follows every index, the decoder's those that arrive.
    #[tactic(auto, unfolding(crate::specs::Losses::follow))]
    fn follow(&mut self, entry: Entry)
        requires { self.old.arrivals ≤ 10000 }
        ensures { self.new ≡ Losses·follow self.old (taken entry) }
    {
        self.ends.coder = line::received(entry.index, self.ends.coder);
        if entry.arrives {
            self.ends.decoder = line::received(entry.index, self.ends.decoder);
            self.arrivals += 1;
        } else {
            self.arrivals = 0;
        }
    }
}

// ---- all lines

// Goes through the lines until one is refused or none is left.
#[tactic(auto, using(crate::proofs::Going::room_to_refuse, crate::proofs::Going::room_to_report))]
fn print(text: &[u8], printed: &mut Printed)
    requires start { printed.old.end ≡ 0 }
    requires room { length printed.old.out.now ≡ 200064 }
    ensures { Puts printed.old (losses text.now) printed.new }
{
    let mut state = State::begin();
    // a place, and no iterator over lines, which has none: the edit next_line_from_the_output is about it, and trial_text's line_feed_left
    let mut at = 0;
    for k in 0..10000 {
        if at >= text.len() {
            return;
        }
        let read = trial_text::line_at(text, at);
        let Some(entry) = read.entry else {
            printed.put_refusal(k + 1);
            return;
        };
        state.follow(entry);
        let apart = ends_apart::apart_64(state.ends);
        printed.put_report(k + 1, state.arrivals, apart);
        at = read.next;
    }
    if at < text.len() {
        printed.put_refusal(10001);
    }
}

// Room for all that is ever printed: 10,000 lines of at most twenty bytes, and a refusal of seventeen.
pub const ROOM: usize = 200064;

// All that is printed of all that was read, at the start of the buffer.
pub fn report(text: &[u8], out: &mut [u8; ROOM]) -> usize
    ensures out_after { take result out.new ≡ losses text.now }
    ensures value { result ≡ length (losses text.now) }
{
    // zeros first: behind what is printed stands nothing that stood there
    *out = [0; ROOM];
    let mut printed = Printed { out, end: 0 };
    print(text, &mut printed);
    printed.end
}
