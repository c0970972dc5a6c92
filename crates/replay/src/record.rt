// The stored list: records, each a line of words. A word is eight hexadecimal digits and the byte after them, a space or
// at the line's end a line feed.
ghost use Rattle.std.specs.Prelude.{◌<◌, IfSome};

// Standard input, by its number. It is read by the kit's `io`: the library's `read_exact` does not tell the end of the list
// from a word that is cut short.
const STDIN_FILENO: i32 = 0;

// What stands next in the list.
#[derive(Clone, Copy)]
pub enum Record<'a> {
    Words(&'a [u32]),
    // nothing: the list has ended
    End,
    // no whole record
    Broken,
}

#[derive(Clone, Copy)]
enum Word {
    // a word with more of its record after it
    Inner(u32),
    // the last word of its record
    Last(u32),
    End,
    Broken,
}

// A hexadecimal digit's value. `to_digit` takes capitals too, which no word has.
fn digit(b: u8) -> Option<u32>
    ensures { IfSome result (λ d. d < 16) }
{
    match b {
        b'0'..=b'9' => Some(u32::from(b - b'0')),
        b'a'..=b'f' => Some(u32::from(b - b'a' + 10)),
        _ => None,
    }
}

// The number that the first eight bytes spell.
fn spelt(text: &[u8; 9]) -> Option<u32> {
    let mut number = 0;
    for b in &text[..8] {
        number = number << 4 | digit(*b)?;
    }
    Some(number)
}

fn read_word() -> Word {
    let mut text = [0; 9];
    let got = io::read_full(STDIN_FILENO, &mut text);
    match (got, spelt(&text), text[8]) {
        (0, _, _) => Word::End,
        (9, Some(w), b' ') => Word::Inner(w),
        (9, Some(w), b'\n') => Word::Last(w),
        _ => Word::Broken,
    }
}

// Reads the next record to the start of words. By an index, since the words that have been read are lent on in the midst of it.
pub fn read(words: &mut [u32; 1024]) -> Record<'_> {
    for n in 0..1024 {
        match read_word() {
            Word::Inner(w) => words[n] = w,
            Word::Last(w) => {
                words[n] = w;
                return Record::Words(&words[..n + 1]);
            }
            Word::End if n == 0 => return Record::End,
            Word::End | Word::Broken => return Record::Broken,
        }
    }
    Record::Broken
}
