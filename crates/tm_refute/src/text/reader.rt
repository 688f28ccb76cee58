//! What is left of a text, from whose front parts are taken.
ghost use Rattle.std.specs.Prelude.{◌≤◌, drop, length, take};
ghost use Rattle.tm_refute.specs.Taken.{IsNumber, IsNumbered, IsUpTo, ReadsAll, Takes, TakesDigit, TakesLine, TakesText, IsWholeNumber};

/// A place in a text. What was read moves it on; where something isn't in its form, it may stand anywhere.
#[derive(Drop)]
pub struct Reader<'a> {
    /// What stands from here on.
    pub rest: &'a [u8],
}

impl<'a> Reader<'a> {
    /// This text.
    pub fn accept(&mut self, text: &[u8]) -> bool
        ensures { TakesText text.now self.old.rest.now self.new.rest.now result }
    {
        match self.rest.strip_prefix(text) {
            Some(rest) => {
                self.rest = rest;
                true
            }
            None => false,
        }
    }

    /// A number below 2^32, in decimal digits without leading zeros; no digit follows.
    pub fn number(&mut self) -> Option<u32>
        ensures { Takes IsNumber self.old.rest.now self.new.rest.now result }
    {
        let mut number = self.digit()?;
        while let Some(digit) = self.digit() {
            if number == 0 {
                return None;
            }
            number = number.checked_mul(10)?.checked_add(digit)?;
        }
        Some(number)
    }

    /// This text, and a number behind it.
    pub fn numbered(&mut self, text: &[u8]) -> Option<u32>
        ensures { Takes (IsNumbered text.now) self.old.rest.now self.new.rest.now result }
    {
        if !self.accept(text) {
            return None;
        }
        self.number()
    }

    /// All up to this byte, or to the end.
    pub fn until(&mut self, end: u8) -> &'a [u8]
        ensures { IsUpTo end self.old.rest.now result.now self.new.rest.now }
    {
        let count = length_until(self.rest, end);
        let (front, rest) = self.rest.split_at(count);
        self.rest = rest;
        front
    }

    /// A line and its end.
    pub fn line(&mut self) -> Option<&'a [u8]>
        ensures { TakesLine self.old.rest.now self.new.rest.now result }
    {
        let line = self.until(b'\n');
        if !self.accept(b"\n") {
            return None;
        }
        Some(line)
    }

    /// One decimal digit.
    fn digit(&mut self) -> Option<u32>
        ensures { TakesDigit self.old.rest.now self.new.rest.now result }
    {
        match self.rest {
            [byte, rest @ ..] if byte.is_ascii_digit() => {
                self.rest = rest;
                Some(u32::from(*byte - b'0'))
            }
            _ => None,
        }
    }
}

/// The number below 2^32 that a text is, in decimal digits without leading zeros.
pub fn whole_number(text: &[u8]) -> Option<u32>
    ensures { ReadsAll IsWholeNumber text.now result }
{
    let mut line = Reader { rest: text };
    let number = line.number()?;
    if !line.rest.is_empty() {
        return None;
    }
    Some(number)
}

/// How many bytes stand before the first such byte, or before the end.
fn length_until(bytes: &[u8], end: u8) -> usize
    ensures within { result ≤ length bytes.now }
    ensures cut { IsUpTo end bytes.now (take result bytes.now) (drop result bytes.now) }
{
    let mut count = 0;
    for byte in bytes {
        if *byte == end {
            return count;
        }
        count += 1;
    }
    count
}
