//! The first two lines of a text.
ghost use Rattle.std.specs.Prelude.{◌≡◌, ◌++◌, ◌<◌, codes};
ghost use Rattle.tm_refute.specs.Runs.{Reads};
ghost use Rattle.tm_refute.specs.Taken.{ReadsAll};
ghost use Rattle.tm_refute.specs.LinesRead.{IsHeader, Tells, IsQuestion, IsTop};

use crate::refutation::Piece;
use crate::stop::{Stop, TextErr};
use crate::text::piece_text::piece;
use crate::text::reader::{Reader, whole_number};
use std::alloc::Global;

/// The question's number and the top: the first two lines.
pub fn header(alloc: Global, text: &mut Reader<'_>, pointer: u32) -> Result<(u32, Piece), TextErr>
    requires { pointer < 256 }
    ensures { let bytes = text.old.rest.now in
        Tells pointer bytes (IsHeader pointer bytes text.new.rest.now) result }
{
    let Some(first) = text.line() else {
        return Err(TextErr::At(1));
    };
    let Some(number) = question(first) else {
        return Err(TextErr::At(1));
    };
    let Some(second) = text.line() else {
        return Err(TextErr::At(2));
    };
    match top(alloc, second, pointer) {
        Ok(top) => Ok((number, top)),
        Err(Stop::Form) => Err(TextErr::At(2)),
        Err(Stop::Memory) => Err(TextErr::Memory),
    }
}

/// The number of the question that a line names, as `refutation of question 1`.
fn question(text: &[u8]) -> Option<u32>
    ensures { ReadsAll IsQuestion text.now result }
{
    let mut line = Reader { rest: text };
    if !line.accept(b"refutation of question ") {
        return None;
    }
    whole_number(line.rest)
}

/// The top that a line is, as `word at 0: &1`.
fn top(alloc: Global, text: &[u8], pointer: u32) -> Result<Piece, Stop>
    requires { pointer < 256 }
    ensures { Reads (IsTop pointer text.now) result }
{
    let mut line = Reader { rest: text };
    if !line.accept(b"word at ") {
        return Err(Stop::Form);
    }
    piece(alloc, line.rest, pointer)
}
