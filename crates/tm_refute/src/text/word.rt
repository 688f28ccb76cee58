//! The text of a word.
ghost use Rattle.std.specs.Prelude.{◌<◌};
ghost use Rattle.tm_refute.specs.Runs.{Reads};
ghost use Rattle.tm_refute.specs.WordForms.{IsWordText};

use crate::stop::Stop;
use crate::text::part::Run;
use crate::text::reader::Reader;
use std::alloc::Global;
use tm_base::{List, Word};

/// The word that a text is, where a reference has so many bytes: `empty`, or pieces with one space between them.
pub fn word(alloc: Global, text: &[u8], pointer: u32) -> Result<Word, Stop>
    requires { pointer < 256 }
    ensures { Reads (λ word. IsWordText pointer text.now word) result }
{
    let mut word = List::new(alloc);
    if text == b"empty".as_slice() {
        return Ok(word);
    }
    let mut line = Reader { rest: text };
    loop {
        let Some(run) = Run::of_text(line.until(b' ')) else {
            return Err(Stop::Form);
        };
        run.add_to(&mut word, pointer)?;
        match line.rest {
            [] => return Ok(word),
            [_, rest @ ..] => line.rest = rest,
        }
    }
}
