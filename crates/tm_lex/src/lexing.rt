ghost use Rattle.std.specs.Prelude.{◌≡◌, ℕ, ◌+◌, ◌≤◌, ◌⊎◌, [], ◌∷◌, ◌++◌, List, length, All, OnOk, IfOk, IfErr, MatchResult};
ghost use Rattle.std.specs.Str.{chars};
ghost use Rattle.tm_lex.specs.declared.fault.LexWhy.{LexWhy};
ghost use Rattle.tm_lex.specs.declared.token.Token.{Token};
ghost use Rattle.tm_lex.specs.Characters.{bytes_of};
ghost use Rattle.tm_lex.specs.Lexes.{Tokenizes, IsFault, HasCause, IsPieceOf, InOrder};

use crate::fault::LexErr;
use crate::front::{past_mark, size};
use crate::piece::{Piece, next_piece};
use crate::token::Token;
use std::alloc::Global;

/// The byte of a text at which a rest of it begins.
fn place(text: &str, rest: &str) -> u32
    requires within { bytes_of (chars rest.now) ≤ length text.now }
    requires small { length text.now ≤ 1048576 }
    ensures { result + bytes_of (chars rest.now) ≡ length text.now }
{
    (text.len() - size(rest)) as u32
}

/// Puts a token behind the others.
fn add(tokens: &mut Vec<Token>, token: Token) -> Result<(), LexErr>
    ensures ok { OnOk result (tokens.new.items ≡ tokens.old.items ++ token ∷ []) }
    ensures err { IfErr result (λ err. err ≡ LexErr.Memory) }
{
    match tokens.push(token) {
        Ok(()) => Ok(()),
        Err(_) => Err(LexErr::Memory),
    }
}

/// The tokens of a text, read piece by piece.
fn read(alloc: Global, text: &str) -> Result<Vec<Token>, LexErr>
    requires { length text.now ≤ 1048576 }
    ensures tokens { IfOk result (λ tokens. Tokenizes text.now tokens.items) }
    ensures fault { IfErr result (HasCause text.now) }
{
    let mut tokens = Vec::new(alloc);
    let mut rest = past_mark(text);
    'pieces: loop {
        match next_piece(rest) {
            Piece::End => return Ok(tokens),
            Piece::Gap(after) => rest = after,
            Piece::Token(kind, after) => {
                let start = place(text, rest);
                let end = place(text, after);
                add(&mut tokens, Token { kind, start, end })?;
                rest = after;
            }
            Piece::Fault(why) => return Err(LexErr::At(place(text, rest), why)),
        }
    }
}

/// The tokens of a text of at most 1,048,576 bytes, in their order.
///
/// A byte order mark at the text's first byte is skipped, and so are white space and comments, of which
/// those between `/*` and `*/` nest. `At(place, why)`: `place` is the first byte at which none of these
/// and no token begins. `OpenComment` stands at the outermost `/*` that isn't closed, `BadNumber` at the
/// digit with which the run begins, and `NoToken` at any other character. `Memory`: there wasn't enough
/// memory for the tokens.
pub fn lex(alloc: Global, text: &str) -> Result<Vec<Token>, LexErr>
    requires { length text.now ≤ 1048576 }
    ensures tokens { IfOk result (λ tokens. Tokenizes text.now tokens.items) }
    ensures fault { IfErr result (HasCause text.now) }

    // A text has one list of tokens or one fault, which is answered where memory isn't wanting.
    ensures tokenizes { (tokens : List Token) → Tokenizes text.now tokens
        → MatchResult result (λ found. found.items ≡ tokens) (λ err. err ≡ LexErr.Memory) }
    ensures faults { (place : ℕ) (why : LexWhy) → IsFault text.now place why
        → MatchResult result (λ _. ⊥) (λ err. (err ≡ LexErr.At place why) ⊎ (err ≡ LexErr.Memory)) }

    // Each token is a piece of the text, and none begins before the end of the one before.
    ensures pieces { IfOk result (λ tokens. All (IsPieceOf text.now) tokens.items) }
    ensures order { IfOk result (λ tokens. InOrder 0 tokens.items (length text.now)) }
{
    read(alloc, text)
}
