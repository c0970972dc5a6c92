// What is left of a record: its words are taken, and what the library gives is held against them, one after the other.
ghost use Rattle.std.specs.Prelude.{◌≤◌};

use arrayvec::ArrayVec;
use float::status::Refusal;

// How many samples fit in what an operation is given.
const ROOM: usize = 510;

#[derive(Clone, Copy)]
pub struct Words<'a> {
    left: &'a [u32],
}

impl<'a> Words<'a> {
    pub fn new(left: &'a [u32]) -> Words<'a> {
        Words { left }
    }

    // ---- what is given

    pub fn word(&mut self) -> Option<u32> {
        let (first, left) = self.left.split_first()?;
        self.left = left;
        Some(*first)
    }

    // The low eight bits of a word.
    pub fn byte(&mut self) -> Option<u8> {
        Some((self.word()? % 256) as u8)
    }

    // Two words as one, the high one first.
    pub fn wide(&mut self) -> Option<u64> {
        let high = self.word()?;
        let low = self.word()?;
        Some(u64::from(high) << 32 | u64::from(low))
    }

    pub fn place(&mut self) -> Option<usize> {
        Some(self.wide()? as usize)
    }

    pub fn single(&mut self) -> Option<f32> {
        Some(float::of_bits(self.word()?))
    }

    pub fn singles<const N: usize>(&mut self) -> Option<[f32; N]>
        requires { N ≤ 510 }
    {
        let (first, left) = self.left.split_first_chunk::<N>()?;
        self.left = left;
        Some(first.map(|w| float::of_bits(w)))
    }

    // A count, and so many words; none where there are more than `most`.
    fn counted(&mut self, most: usize) -> Option<&'a [u32]> {
        let count = self.word()? as usize;
        if count > most {
            return None;
        }
        let (words, left) = self.left.split_at_checked(count)?;
        self.left = left;
        Some(words)
    }

    // The singles that have so many patterns.
    pub fn samples(&mut self, most: usize) -> Option<ArrayVec<f32, ROOM>> {
        let patterns = self.counted(most)?;
        let mut samples = ArrayVec::new();
        for w in patterns {
            samples.try_push(float::of_bits(*w)).ok()?;
        }
        Some(samples)
    }

    // The samples that the low 16 bits of so many words are.
    pub fn shorts(&mut self, most: usize) -> Option<ArrayVec<i16, ROOM>> {
        let words = self.counted(most)?;
        let mut samples = ArrayVec::new();
        for w in words {
            samples.try_push(((*w & 0xffff) as u16).cast_signed()).ok()?;
        }
        Some(samples)
    }

    // ---- what is answered: none where the record has something else

    pub fn is(&mut self, w: u32) -> Option<()> {
        (self.word()? == w).then_some(())
    }

    // Any NaN's pattern stands for any NaN.
    pub fn are(&mut self, xs: &[f32]) -> Option<()> {
        for x in xs {
            if !float::same_bits(*x, self.word()?) {
                return None;
            }
        }
        Some(())
    }

    // A NaN has no pattern here: no sum of an accepted window is one.
    pub fn doubles_are(&mut self, xs: &[f64]) -> Option<()> {
        for x in xs {
            if x.is_nan() || x.to_bits() != self.wide()? {
                return None;
            }
        }
        Some(())
    }

    // Nothing but zeros is left.
    pub fn zeros(&self) -> Option<()> {
        self.left.iter().all(|w| *w == 0).then_some(())
    }

    // A refusal's number, and zeros for what there is none of.
    pub fn refused(&mut self, refusal: Refusal) -> Option<()> {
        self.is(refusal.number())?;
        self.zeros()
    }

    pub fn lines<const N: usize>(&mut self, answer: Result<[f32; N], Refusal>) -> Option<()> {
        match answer {
            Ok(lines) => {
                self.is(0)?;
                self.are(&lines)
            }
            Err(refusal) => self.refused(refusal),
        }
    }
}
