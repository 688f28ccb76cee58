ghost use Rattle.std.specs.Prelude.{◌≡◌, ℕ, List};
ghost use Rattle.std.specs.Str.{chars};
ghost use Rattle.tm_lex.specs.Characters.{IsRun};
ghost use Rattle.tm_lex.specs.Words.{begins_word, continues_word};
ghost use Rattle.tm_lex.specs.Pieces.{Fronts};

use crate::front::front;
use unicode_ident::{is_xid_continue, is_xid_start};

/// Whether a word begins with the character.
pub fn begins_word(c: char) -> bool
    ensures { result ≡ begins_word c }
{
    is_xid_start(c) || c == '_'
}

/// What stands behind the longest run of characters that continue a word.
#[tactic(auto, using(crate::proofs::RunLemmas::run_ends, crate::proofs::RunLemmas::run_stops, crate::proofs::RunLemmas::run_goes_on))]
pub fn word_end(text: &str) -> &str
    ensures { Fronts (IsRun continues_word) (chars text.now) (chars result.now) }
{
    let mut rest = text;
    'run: while let Some((c, after)) = front(rest) {
        if !is_xid_continue(c) {
            return rest;
        }
        rest = after;
    }
    rest
}
