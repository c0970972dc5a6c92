// What is printed for a loss pattern, put into a lent buffer (request E7): a number in decimal, the three numbers of a line, a refusal.
#![tactic(auto)]

ghost use Rattle.std.specs.Prelude.{[], ◌∷◌, ◌++◌, length};
ghost use Rattle.trial_print.specs.Printed.{decimal, ended, reported, refusal};
ghost use Rattle.trial_print.specs.inner.Put.{HasRoom, Puts};

use itoa::Buffer;

// A lent buffer, and where what has been put into it ends.
#[derive(Drop)]
pub struct Printed<'a> {
    pub out: &'a mut [u8],
    pub end: usize,
}

impl Printed<'_> {
    // Bytes one after the other.
    fn put(&mut self, bytes: &[u8])
        requires { HasRoom self.old bytes.now }
        ensures { Puts self.old bytes.now self.new }
    {
        let end = self.end + bytes.len();
        self.out[self.end..end].copy_from_slice(bytes);
        self.end = end;
    }

    // A number in decimal, first digit first.
    #[tactic(auto, using(crate::proofs::Decimal::decimal_is))]
    fn put_decimal(&mut self, n: u32)
        requires { HasRoom self.old (decimal n) }
        ensures { Puts self.old (decimal n) self.new }
    {
        self.put(Buffer::new().format(n).as_bytes());
    }

    // A number and a byte after it.
    fn put_ended(&mut self, n: u32, byte: u8)
        requires { HasRoom self.old (ended byte n) }
        ensures { Puts self.old (ended byte n) self.new }
    {
        self.put_decimal(n);
        self.put(&[byte]);
    }

    // What is printed for a line: its number, the arrivals in a row, and the largest difference.
    pub fn put_report(&mut self, k: u32, n: u32, q: u32)
        requires { HasRoom self.old (reported k n q) }
        ensures { Puts self.old (reported k n q) self.new }
    {
        self.put_ended(k, b' ');
        self.put_ended(n, b' ');
        self.put_ended(q, b'\n');
    }

    // What is printed in place of a line that is refused.
    pub fn put_refusal(&mut self, k: u32)
        requires { HasRoom self.old (refusal k) }
        ensures { Puts self.old (refusal k) self.new }
    {
        self.put(b"refused 12 ");
        self.put_ended(k, b'\n');
    }
}
