//! The texts of pieces and proofs.
ghost use Rattle.std.specs.Prelude.{◌<◌};
ghost use Rattle.tm_refute.specs.Runs.{Reads};
ghost use Rattle.tm_refute.specs.TextForms.{IsPieceText, IsProofText};

use crate::refutation::{Piece, Proof};
use crate::stop::Stop;
use crate::text::reader::Reader;
use crate::text::rule::local_rule;
use crate::text::word::word;
use std::alloc::Global;

/// The piece that a text is, as `0: 02`.
pub fn piece(alloc: Global, text: &[u8], pointer: u32) -> Result<Piece, Stop>
    requires { pointer < 256 }
    ensures { Reads (λ piece. IsPieceText pointer text.now piece) result }
{
    let mut line = Reader { rest: text };
    let Some(offset) = line.number() else {
        return Err(Stop::Form);
    };
    if !line.accept(b": ") {
        return Err(Stop::Form);
    }
    Ok(Piece {
        word: word(alloc, line.rest, pointer)?,
        offset,
    })
}

/// The proof that stands behind a depth: as `: ref-lifetime` behind 0, and else as `, forward at 0: 02`.
pub fn proof(alloc: Global, depth: u32, text: &[u8], pointer: u32) -> Result<Proof, Stop>
    requires { pointer < 256 }
    ensures { Reads (λ proof. IsProofText pointer depth text.now proof) result }
{
    let mut line = Reader { rest: text };
    if depth == 0 {
        if !line.accept(b": ") {
            return Err(Stop::Form);
        }
        return match local_rule(line.rest) {
            Some(rule) => Ok(Proof::Local(rule)),
            None => Err(Stop::Form),
        };
    }
    if line.accept(b", forward at ") {
        return Ok(Proof::Forward(piece(alloc, line.rest, pointer)?));
    }
    if line.accept(b", reverse at ") {
        return Ok(Proof::Reverse(piece(alloc, line.rest, pointer)?));
    }
    Err(Stop::Form)
}
