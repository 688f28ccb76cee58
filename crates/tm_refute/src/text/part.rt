//! The pieces of a word's text.
ghost use Rattle.std.specs.Prelude.{◌≡◌, ◌++◌, ◌<◌, ◌≤◌, OnOk, length};
ghost use Rattle.tm_refute.specs.Runs.{AddsRun, TakesGlyph, as_part, IsPartText, run_cells, IsRunText, IsTimesText};
ghost use Rattle.tm_refute.specs.Taken.{ReadsAll};
ghost use Rattle.tm_refute.specs.WordForms.{most_cells, part_cells};

use crate::stop::Stop;
use crate::text::reader::{Reader, whole_number};
use tm_base::{Cell, Memory, RefId, Word};

/// What a piece stands for, before it is repeated.
#[derive(Clone, Copy, Debug, Drop)]
pub enum Part {
    /// An initialised byte.
    Byte(u8),
    /// An uninitialised byte.
    Uninit,
    /// All cells of a reference.
    Reference(RefId),
}

/// A part so many times.
#[derive(Clone, Copy, Debug, Drop)]
pub struct Run {
    /// What is repeated.
    pub part: Part,
    /// How often, from 1 to 65,536.
    pub times: u32,
}

impl Part {
    /// The part that a text is, as `0a`, `--` or `&1`.
    fn of_text(text: &[u8]) -> Option<Part>
        ensures { ReadsAll IsPartText text.now result }
    {
        match text {
            [b'&', digits @ ..] => Some(Part::Reference(RefId(whole_number(digits)?))),
            [b'-', b'-'] => Some(Part::Uninit),
            [high, low] => Some(Part::Byte(digit(*high)? * 16 + digit(*low)?)),
            _ => None,
        }
    }

    /// How many cells it has.
    fn size(self, pointer: u32) -> u32
        ensures { result ≡ length (part_cells pointer (as_part self)) }
    {
        match self {
            Part::Byte(_) | Part::Uninit => 1,
            Part::Reference(_) => pointer,
        }
    }

    /// Adds its cells to a word, where a reference has so many bytes.
    fn add_to(self, word: &mut Word, pointer: u32) -> Result<(), Memory>
        requires { pointer < 256 }
        ensures { OnOk result (word.new ≡ word.old ++ part_cells pointer (as_part self)) }
    {
        match self {
            Part::Byte(byte) => word.add(Cell::Byte(byte)),
            Part::Uninit => word.add(Cell::Uninit),
            Part::Reference(id) => {
                for place in 0..pointer {
                    word.add(Cell::Ptr(id, place as u8))?;
                }
                Ok(())
            }
        }
    }
}

impl Run {
    /// The run that a piece's text is, as `00` or `00*8`.
    pub fn of_text(text: &[u8]) -> Option<Run>
        ensures { ReadsAll IsRunText text.now result }
    {
        let mut line = Reader { rest: text };
        let part = Part::of_text(line.until(b'*'))?;
        let times = times(line.rest)?;
        Some(Run { part, times })
    }

    /// Adds its cells to a word, which has 65,536 at most then.
    pub fn add_to(self, word: &mut Word, pointer: u32) -> Result<(), Stop>
        requires pointer { pointer < 256 }
        requires few { length word.old ≤ most_cells }
        ensures { AddsRun (run_cells pointer self) word.old word.new result }
    {
        if u64::from(self.times) * u64::from(self.part.size(pointer)) + word.len() as u64 > 65536 {
            return Err(Stop::Form);
        }
        for _ in 0..self.times {
            self.part.add_to(word, pointer)?;
        }
        Ok(())
    }
}

/// How often a piece stands, by what is behind its part: nothing, or as `*8`.
fn times(text: &[u8]) -> Option<u32>
    ensures { ReadsAll IsTimesText text.now result }
{
    if text.is_empty() {
        return Some(1);
    }
    let mut line = Reader { rest: text };
    if !line.accept(b"*") {
        return None;
    }
    let times = whole_number(line.rest)?;
    if times == 0 {
        return None;
    }
    if times > 65536 {
        return None;
    }
    Some(times)
}

/// The value of a digit of base 16, in lower case.
fn digit(glyph: u8) -> Option<u8>
    ensures { TakesGlyph glyph result }
{
    match glyph {
        b'0'..=b'9' => Some(glyph - b'0'),
        b'a'..=b'f' => Some(glyph - b'a' + 10),
        _ => None,
    }
}
