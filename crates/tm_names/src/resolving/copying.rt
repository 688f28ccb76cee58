ghost use Rattle.std.specs.Prelude.{◌≡◌, ◌≤◌, IfOk, IsCharBoundary, slice_range};
ghost use Rattle.tm_lex.specs.Lexes.{Tokenizes};
ghost use Rattle.tm_names.specs.Written.{name_at};

use std::alloc::Global;
use tm_base::{Memory, Text};
use tm_lex::Token;

/// A copy of a part of a text.
fn copy(alloc: Global, text: &str, start: u32, end: u32) -> Result<Text, Memory>
    requires ordered { start ≤ end }
    requires begins { IsCharBoundary text.now start }
    requires ends { IsCharBoundary text.now end }
    ensures { IfOk result (λ copy. copy ≡ slice_range text.now start end) }
{
    let mut copy = Text::new(alloc);
    copy.push_str(&text[start as usize..end as usize])?;
    Ok(copy)
}

/// A copy of the token at a place, of the tokens of a text; the empty text where there is no token.
pub fn token_text(alloc: Global, text: &str, tokens: &[Token], place: u32) -> Result<Text, Memory>
    requires { Tokenizes text.now tokens.now }
    ensures { IfOk result (λ copy. copy ≡ name_at text.now tokens.now place) }
{
    match tokens.get(place as usize) {
        None => Ok(Text::new(alloc)),
        Some(token) => copy(alloc, text, token.start, token.end),
    }
}
