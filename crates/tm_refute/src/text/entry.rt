//! The text of an entry.
ghost use Rattle.std.specs.Prelude.{◌<◌};
ghost use Rattle.tm_refute.specs.Runs.{Reads};
ghost use Rattle.tm_refute.specs.TextForms.{IsEntryText};

use crate::refutation::Entry;
use crate::stop::Stop;
use crate::text::piece_text::proof;
use crate::text::reader::Reader;
use std::alloc::Global;
use tm_base::RefId;

/// The entry that a line is, as `&3 to &2, depth 1, forward at 0: 02`.
pub fn entry(alloc: Global, text: &[u8], pointer: u32) -> Result<Entry, Stop>
    requires { pointer < 256 }
    ensures { Reads (λ entry. IsEntryText pointer text.now entry) result }
{
    let mut line = Reader { rest: text };
    let Some(source) = line.numbered(b"&") else {
        return Err(Stop::Form);
    };
    let Some(target) = line.numbered(b" to &") else {
        return Err(Stop::Form);
    };
    let Some(depth) = line.numbered(b", depth ") else {
        return Err(Stop::Form);
    };
    let proof = proof(alloc, depth, line.rest, pointer)?;
    Ok(Entry {
        source: RefId(source),
        target: RefId(target),
        depth,
        proof,
    })
}
