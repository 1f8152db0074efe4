// Whole decimal numbers of a text. Every byte that is no digit separates them, and a line that starts with '#' is a comment.
ghost use Rattle.std.specs.Prelude.{◌≡◌, ◌<◌, ◌≤◌, length};
ghost use Rattle.cases.specs.Reading.{Onward};

use std::io;

// A text, and the place that has been read up to.
#[derive(Drop)]
pub struct Reader<'a> {
    pub text: &'a [u8],
    pub at: usize,
}

impl<'a> Reader<'a> {
    // From the start of a text.
    pub fn new(text: &'a [u8]) -> Self
        ensures text { result.text ≡ text.entry }
        ensures start { result.at ≡ 0 }
    {
        Reader { text, at: 0 }
    }

    // The next number. Where none is left: 0, and the end of the text is reached.
    // A number above the largest u64 is read as the largest.
    pub fn number(&mut self) -> u64
        ensures on { Onward self.old.text.now self.old.at self.new.at }
        ensures same_text { self.new.text ≡ self.old.text }
    {
        let from = next_digit(self.text, self.at);
        let rest = &self.text[from..];
        let count = rest
            .iter()
            .position(|byte| !byte.is_ascii_digit())
            .unwrap_or(rest.len());
        self.at = from + count;
        rest[..count]
            .iter()
            .fold(0u64, |value, digit| with_digit(value, *digit))
    }

    // The next number as a size.
    pub fn size(&mut self) -> usize
        ensures on { Onward self.old.text.now self.old.at self.new.at }
        ensures same_text { self.new.text ≡ self.old.text }
    {
        self.number() as usize
    }

    // The next number as a size, and no more than `most`: for a count of entries of an array.
    pub fn at_most(&mut self, most: usize) -> usize
        ensures most { result ≤ most }
        ensures on { Onward self.old.text.now self.old.at self.new.at }
        ensures same_text { self.new.text ≡ self.old.text }
    {
        self.size().min(most)
    }

    // Whether the next number is 1.
    pub fn flag(&mut self) -> bool
        ensures on { Onward self.old.text.now self.old.at self.new.at }
        ensures same_text { self.new.text ≡ self.old.text }
    {
        self.number() == 1
    }

    // Fills `to` with the next numbers, each too large for an entry read as `largest`.
    pub fn fill<T: TryFrom<u64> + Copy>(&mut self, to: &mut [T], largest: T)
    where
        T::Error: Drop,
        ensures on { Onward self.old.text.now self.old.at self.new.at }
        ensures same_text { self.new.text ≡ self.old.text }
    {
        self.at = self.at.min(self.text.len());
        for entry in to.iter_mut() {
            *entry = T::try_from(self.number()).unwrap_or(largest);
        }
    }

    // The next 20 numbers, as a finding's bits.
    pub fn bits(&mut self) -> [u32; 20]
        ensures on { Onward self.old.text.now self.old.at self.new.at }
        ensures same_text { self.new.text ≡ self.old.text }
    {
        let mut bits = [0; 20];
        self.fill(&mut bits, u32::MAX);
        bits
    }

    // Reads the number of cases, then answers each, up to the first whose answer fails.
    pub fn each<F: FnMut(&mut Reader<'a>) -> io::Result<()>>(
        &mut self,
        mut answer: F,
    ) -> io::Result<()>
        requires { F.IsAlwaysCallable answer }
    {
        for _ in 0..self.number() {
            answer(self)?;
        }
        Ok(())
    }
}

// The place of the first digit at or after a place that is in no comment, or the text's end.
fn next_digit(text: &[u8], at: usize) -> usize
    ensures { Onward text.now at result }
{
    let mut i = at.min(text.len());
    // Kept: a turn passes a whole comment, so its step is no count.
    while i < text.len() && !text[i].is_ascii_digit() {
        i = after(text, i);
    }
    i
}

// The place after what stands at a place: a comment that starts there, else one byte.
fn after(text: &[u8], at: usize) -> usize
    requires { at < length text.now }
    ensures { (at < result) × (result ≤ length text.now) }
{
    let next = at + 1;
    if text[at] != b'#' || at > 0 && text[at - 1] != b'\n' {
        return next;
    }
    let rest = &text[next..];
    next + rest
        .iter()
        .position(|byte| *byte == b'\n')
        .unwrap_or(rest.len())
}

// The number with one more digit, or the largest u64 where that is too small for it.
fn with_digit(value: u64, digit: u8) -> u64 {
    value
        .saturating_mul(10)
        .saturating_add(u64::from(digit.saturating_sub(b'0')))
}
