// Loss patterns as text (request E7): a line of a pattern, read from a place of the text.
#![tactic(auto)]

ghost use Rattle.std.specs.Prelude.{◌≡◌, ◌+◌, ◌≤◌, ◌<◌, length, drop};
ghost use Rattle.trial_text.specs.Pattern.{entry_of};
ghost use Rattle.trial_text.specs.Answers.{as_entry};
ghost use Rattle.trial_text.specs.inner.First.{as_read, first_line, read_at};
ghost use Rattle.trial_text.specs.inner.Value.{value, arrival};

// What a line says that has the form: its index, and whether that arrives.
#[derive(Clone, Copy)]
pub struct Entry {
    pub index: u32,
    pub arrives: bool,
}

// What a line says, if it has the form, and where the next one would begin.
#[derive(Clone, Copy)]
pub struct Read {
    pub entry: Option<Entry>,
    pub next: usize,
}

// The value of a digit.
#[tactic(auto, using(std::proofs::lemmas::Bool::Decides::nat_tests), unfolding(crate::specs::Pattern::digit))]
fn digit(c: u8) -> Option<u32>
    ensures { result ≡ value c }
{
    match c {
        b'0'..=b'9' => Some(u32::from(c - b'0')),
        b'A'..=b'F' => Some(u32::from(c - b'A' + 10)),
        _ => None,
    }
}

// Whether an index arrives, by what follows its digits.
#[tactic(auto, using(std::proofs::lemmas::Bool::Decides::nat_tests), unfolding(crate::specs::inner::Value::arrival))]
fn arrival(ending: &[u8]) -> Option<bool>
    ensures { result ≡ arrival ending.now }
{
    match ending {
        b" +" => Some(true),
        b" -" => Some(false),
        _ => None,
    }
}

// A line: six digits, a space, and + or a hyphen.
#[tactic(auto, using(crate::proofs::Digits::lined))]
fn spoken(line: &[u8]) -> Option<Entry>
    ensures { as_entry result ≡ entry_of line.now }
{
    let (digits, ending) = line.split_at_checked(6)?;
    let mut index = 0;
    for c in digits {
        index = 16 * index + digit(*c)?;
    }
    let arrives = arrival(ending)?;
    Some(Entry { index, arrives })
}

// Where the line that begins at a place ends: at its line feed, or with the text.
fn line_end(text: &[u8], at: usize) -> usize
    requires { at ≤ length text.now }
    ensures { (result ≡ at + length (first_line (drop at text.now))) × (result ≤ length text.now) }
{
    let rest = &text[at..];
    let length = rest.iter().position(|c| *c == b'\n');
    at + length.unwrap_or(rest.len())
}

// The line that begins at a place.
#[tactic(auto, using(crate::proofs::First::read_is))]
pub fn line_at(text: &[u8], at: usize) -> Read
    requires { at < length text.now }
    ensures { as_read result ≡ read_at text.now at }
{
    let end = line_end(text, at);
    Read {
        entry: spoken(&text[at..end]),
        next: end + 1,
    }
}
