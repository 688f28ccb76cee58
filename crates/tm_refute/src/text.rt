//! The text of a refutation.
ghost use Rattle.std.specs.Prelude.{◌≡◌, ℕ, ◌<◌, ◌⊎◌, ◌^◌, IfErr, IfOk, List, length};
ghost use Rattle.tm_refute.specs.LinesRead.{IsFaultOf, IsFitting, IsRead, IsText, IsTold, Tells};
ghost use Rattle.tm_refute.specs.Runs.{Reads};
ghost use Rattle.tm_refute.specs.TextForms.{IsBadLine, IsRefutationText, proof_cells};
ghost use Rattle.tm_refute.specs.Written.{IsWritable};
ghost use Rattle.tm_refute.specs.declared.refutation.Refutation.{Refutation};

mod entry;
mod header;
mod part;
mod piece_text;
mod reader;
mod rule;
mod word;
mod writing;

use crate::refutation::{Entry, Proof, Refutation};
use crate::stop::{Stop, TextErr};
use crate::text::entry::entry;
use crate::text::header::header;
use crate::text::reader::Reader;
use std::alloc::Global;
use tm_base::List;
pub use writing::write_text;

/// Reads the text of a refutation, where a reference has so many bytes: the question's number, the
/// refutation, and the place, in bytes from 0, behind the line `end`. What stands there is no part of it.
/// What is read can be written.
///
/// It takes time in proportion to the bytes and the cells. `At`: this line, from 1, is the first that isn't
/// in the form of its place, or isn't ended. `Memory`: there wasn't enough memory.
pub fn read_text(
    alloc: Global,
    bytes: &[u8],
    pointer: u32,
) -> Result<(u32, Refutation, u32), TextErr>
    requires size { length bytes.now < 2 ^ 31 }
    requires pointer { (pointer ≡ 4) ⊎ (pointer ≡ 8) }
    ensures text { IfOk result (IsText pointer bytes.now) }
    ensures bad { IfErr result (IsFaultOf pointer bytes.now) }
    ensures read { (number : ℕ) (x : Refutation) (rest : List ℕ)
        → IsRefutationText pointer bytes.now number x rest
        → IsRead bytes.now number x rest result }
    ensures told { (line : ℕ) → IsBadLine pointer bytes.now line → IsTold line result }
    ensures writable { IfOk result (λ text. IsWritable pointer text.1) }
{
    lines(alloc, bytes, pointer)
}

/// The lines of a text, up to its line `end`.
fn lines(alloc: Global, bytes: &[u8], pointer: u32) -> Result<(u32, Refutation, u32), TextErr>
    requires size { length bytes.now < 2 ^ 31 }
    requires pointer { pointer < 256 }
    ensures { Tells pointer bytes.now (IsText pointer bytes.now) result }
{
    let mut text = Reader { rest: bytes };
    let (number, top) = header(alloc, &mut text, pointer)?;
    let mut cells = top.word.len();
    let mut x = Refutation {
        top,
        entries: List::new(alloc),
    };
    let mut at: u32 = 3;
    loop {
        let Some(line) = text.line() else {
            return Err(TextErr::At(at));
        };
        if line == b"end".as_slice() {
            let end = (bytes.len() - text.rest.len()) as u32;
            return Ok((number, x, end));
        }
        match fitting(alloc, line, pointer, x.entries.len(), cells) {
            Ok(entry) => {
                cells += entry.proof.cells();
                x.entries.add(entry)?;
            }
            Err(Stop::Form) => return Err(TextErr::At(at)),
            Err(Stop::Memory) => return Err(TextErr::Memory),
        }
        at += 1;
    }
}

/// The entry that a line is, behind so many entries and so many cells of all words.
fn fitting(
    alloc: Global,
    line: &[u8],
    pointer: u32,
    entries: usize,
    cells: usize,
) -> Result<Entry, Stop>
    requires { pointer < 256 }
    ensures { Reads (IsFitting pointer line.now entries cells) result }
{
    if entries >= 4096 {
        return Err(Stop::Form);
    }
    let entry = entry(alloc, line, pointer)?;
    if cells.saturating_add(entry.proof.cells()) > 16_777_216 {
        return Err(Stop::Form);
    }
    Ok(entry)
}

impl Proof {
    /// How many cells it has.
    pub fn cells(&self) -> usize
        ensures { result ≡ proof_cells self.now }
    {
        match self {
            Proof::Local(_) => 0,
            Proof::Forward(piece) | Proof::Reverse(piece) => piece.word.len(),
        }
    }
}
