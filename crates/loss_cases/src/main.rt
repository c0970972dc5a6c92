// The worked cases of request E7 that are run: what is printed for patterns right and wrong, and the numbers behind edits that no
// program shows. A write that fails is not told of.
#![tactic(auto)]

use spec_lsp::{decode, resting};
use std::array;
use trial::ROOM;

// A name, and what is printed for a pattern.
#[tactic(auto, using(trial::proofs::Inside::inside, trial::proofs::Inside::all_of_it))]
fn printed(rt: &impl Print, name: &str, text: &str) {
    let _ = println!(rt; "{name}");
    let mut out = [0; ROOM];
    let k = trial::report(text.as_bytes(), &mut out);
    let _ = rt.write_all(&out[..k]);
}

// The request's own lines.
fn three_lines(rt: &impl Print) {
    printed(rt, "three lines", "010203 +\n000000 -\n000000 +\n");
    printed(
        rt,
        "the last without a line feed",
        "010203 +\n000000 -\n000000 +",
    );
    printed(rt, "nothing", "");
}

fn of_another_form(rt: &impl Print) {
    printed(rt, "a line feed alone", "\n");
    printed(rt, "a line feed too many at the end", "010203 +\n\n");
    printed(rt, "an empty line", "010203 +\n\n000000 +\n");
    printed(rt, "carriage returns", "010203 +\r\n000000 +\r\n");
    printed(rt, "carriage returns alone", "010203 +\r000000 +\r");
    printed(rt, "five digits", "01020 +\n");
    printed(rt, "seven digits", "0010203 +\n");
    printed(rt, "two spaces", "010203  +\n");
    printed(rt, "a space at the end", "010203 + \n");
    printed(rt, "a tab", "010203\t+\n");
    printed(rt, "neither + nor a hyphen", "010203 _\n");
    printed(rt, "no sign", "010203 \n");
    printed(rt, "lower case", "00000A -\n00000a +\n");
    printed(rt, "beside the digits: a slash", "00000/ +\n");
    printed(rt, "a colon", "00000: +\n");
    printed(rt, "an at sign", "00000@ +\n");
    printed(rt, "a G", "00000G +\n");
    printed(rt, "a zero byte", "00000\0 +\n");
    printed(rt, "a piece of a line", "FFFFFF -\nFFFFFF");
}

// One loss of the widest kind, and sixteen arrivals: the third number is 3 after twelve, and 1 from fourteen on.
fn settling(rt: &impl Print) {
    printed(
        rt,
        "a loss and sixteen arrivals",
        "FFFFFF -\nFFFFFF +\nFFFFFF +\nFFFFFF +\nFFFFFF +\nFFFFFF +\nFFFFFF +\nFFFFFF +\nFFFFFF +\nFFFFFF +\nFFFFFF +\nFFFFFF +\nFFFFFF +\nFFFFFF +\nFFFFFF +\nFFFFFF +\nFFFFFF +\n",
    );
}

fn several_losses(rt: &impl Print) {
    printed(
        rt,
        "three losses, three arrivals, one loss, two arrivals",
        "FF0700 -\nFF0700 -\nFF0700 -\n010203 +\n010203 +\n010203 +\n000000 -\nABCDEF +\nABCDEF +\n",
    );
}

// 10,001 lines `000000 +`, one after the other.
fn filled() -> [u8; 90009] {
    let line = b"000000 +\n";
    array::from_fn(|i| line[i % 9])
}

// How many bytes are printed of a text, and the last seventeen of them.
#[tactic(auto, using(trial::proofs::Inside::inside, trial::proofs::Inside::all_of_it))]
fn last_of(rt: &impl Print, text: &[u8]) {
    let mut out = [0; ROOM];
    let k = trial::report(text, &mut out);
    let n = text.len();
    let _ = println!(rt; "{n} bytes read, {k} printed, the last of them:");
    if let Some(last) = out[..k].last_chunk::<17>() {
        let _ = rt.write_all(last);
    }
}

// 10,000 lines, the last without its line feed and with it; one byte more; one line more.
fn ten_thousand_lines(rt: &impl Print) {
    let text = filled();
    for n in [89999, 90000, 90001, 90009] {
        if let Some(first) = text.get(..n) {
            last_of(rt, first);
        }
    }
}

// Six indices after which the first frequency is an odd multiple of 2^-13.
fn odd_multiple(rt: &impl Print) {
    let mut set = resting::resting_set();
    for index in [0x050000, 0x430000, 0x430000, 0x430000, 0x430000, 0x000000] {
        set = decode::decode_lsp_freq(index, set).unwrap_or([0.0; 10]);
    }
    let found = if set[0] == 15243067.0 / 8192.0 {
        " 15243067 / 8192"
    } else {
        ""
    };
    let _ = println!(rt; "the first frequency after 050000, 430000 four times and 000000:{found}");
}

fn main(rt: HostRuntime) {
    three_lines(&rt);
    of_another_form(&rt);
    settling(&rt);
    several_losses(&rt);
    ten_thousand_lines(&rt);
    odd_multiple(&rt);
}
