// Replays the Rust's stored answers, on standard input, and says how many the library gives too. oracle/ writes the list.
// A write that fails is not told of.
#![tactic(auto)]

mod operations;
mod record;
mod words;

use record::Record;
use tally::Tally;

// A proved loop has to end: it counts its turns, more than the records that a list has. A record that cannot be read or that
// no operation knows ends the run; the first that is not answered is told at once.
fn replay(rt: &impl Print) {
    let mut tally = Tally::new(rt);
    let mut words = [0; 1024];
    for _ in 0..1_000_000 {
        let record = match record::read(&mut words) {
            Record::End => break,
            Record::Broken => None,
            Record::Words(record) => operations::known(record),
        };
        let answered = record.is_some_and(operations::answered);
        if !answered & (tally.failed == 0) {
            let line = tally.passed.wrapping_add(1);
            let _ = println!(rt; "the first that is not answered: line {line}");
        }
        tally.count(answered);
        if record.is_none() {
            break;
        }
    }
    tally.finish();
}

fn main(rt: HostRuntime) {
    replay(&rt);
}
