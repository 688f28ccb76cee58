//! The text of a refutation, as it is written.
ghost use Rattle.std.specs.Prelude.{◌≡◌, ℕ, ◌++◌, List, IfOk, OnOk, string_bytes};
ghost use Rattle.tm_refute.specs.TextForms.{IsRefutationText};
ghost use Rattle.tm_refute.specs.Written.{IsEntryReadBack, IsPieceReadBack, IsProofReadBack, IsWritable, ended, entry_text, piece_text, proof_text, refutation_text};

use crate::refutation::{Entry, Piece, Proof, Refutation};
use crate::text::rule::local_word;
use std::alloc::Global;
use tm_base::{Memory, Text};
use tm_report::spaced_word;

/// The text of the refutation of the question with a number. Reading gives both back, whatever stands
/// behind the text.
///
/// It takes time in proportion to the cells and the text. `Memory`: there wasn't enough memory.
pub fn write_text(alloc: Global, number: u32, x: &Refutation) -> Result<Text, Memory>
    requires writable { (pointer : ℕ) × IsWritable pointer x.now }
    ensures text { IfOk result (λ text. text ≡ refutation_text number x.now) }
    ensures form { IfOk result (λ text. (pointer : ℕ) (rest : List ℕ)
        → IsWritable pointer x.now
        → IsRefutationText pointer (text ++ rest) number x.now rest) }
{
    let mut text = format!(in alloc; "refutation of question {number}\nword at ")?;
    write_piece(alloc, &x.top, &mut text)?;
    text.push_str("\n")?;
    for entry in x.entries.as_slice() {
        write_entry(alloc, entry, &mut text)?;
    }
    text.push_str("end\n")?;
    Ok(Text::from(text))
}

/// Writes the line of an entry.
fn write_entry(alloc: Global, entry: &Entry, text: &mut String) -> Result<(), Memory>
    ensures text { OnOk result (
        string_bytes text.new ≡ string_bytes text.old ++ ended (entry_text entry.now)) }
    ensures form { OnOk result (IsEntryReadBack entry.now) }
{
    let (source, target, depth) = (entry.source.0, entry.target.0, entry.depth);
    write!(text, "&{source} to &{target}, depth {depth}")?;
    write_proof(alloc, &entry.proof, text)?;
    text.push_str("\n")?;
    Ok(())
}

/// Writes what stands behind the depth of an entry.
fn write_proof(alloc: Global, proof: &Proof, text: &mut String) -> Result<(), Memory>
    ensures text { OnOk result (
        string_bytes text.new ≡ string_bytes text.old ++ proof_text proof.now) }
    ensures form { OnOk result (IsProofReadBack proof.now) }
{
    match proof {
        Proof::Local(rule) => {
            write!(text, ": {}", local_word(*rule))?;
            Ok(())
        }
        Proof::Forward(piece) => {
            text.push_str(", forward at ")?;
            write_piece(alloc, piece, text)
        }
        Proof::Reverse(piece) => {
            text.push_str(", reverse at ")?;
            write_piece(alloc, piece, text)
        }
    }
}

/// Writes a piece: its offset and its word.
fn write_piece(alloc: Global, piece: &Piece, text: &mut String) -> Result<(), Memory>
    ensures text { OnOk result (
        string_bytes text.new ≡ string_bytes text.old ++ piece_text piece.now) }
    ensures form { OnOk result (IsPieceReadBack piece.now) }
{
    let offset = piece.offset;
    let word = spaced_word(alloc, piece.word.as_slice())?;
    write!(text, "{offset}:{}", word.as_str())?;
    Ok(())
}
