ghost use Rattle.std.specs.Prelude.{◌∷◌};
ghost use Rattle.std.specs.Str.{chars};
ghost use Rattle.tm_lex.specs.Pieces.{BeginsWithDigit, IsPiece};

use crate::fault::LexWhy;
use crate::front::front;
use crate::gaps::{comment_end, line_end};
use crate::numbers::number_of;
use crate::opening::{Opening, opening_of};
use crate::token::TokenKind;
use crate::words::{begins_word, word_end};

/// White space, a comment or a token at the front of a text, and what stands behind it; or a fault there.
pub enum Piece<'a> {
    End,
    Gap(&'a str),
    Token(TokenKind, &'a str),
    Fault(LexWhy),
}

/// A comment that begins with `/*` before the rest.
fn block_comment(rest: &str) -> Piece<'_>
    ensures { IsPiece result (47 ∷ 42 ∷ chars rest.now) }
{
    match comment_end(rest) {
        Some(after) => Piece::Gap(after),
        None => Piece::Fault(LexWhy::OpenComment),
    }
}

/// A lifetime whose `'` stands before the rest.
fn lifetime(rest: &str) -> Piece<'_>
    ensures { IsPiece result (39 ∷ chars rest.now) }
{
    let Some((c, after)) = front(rest) else {
        return Piece::Fault(LexWhy::NoToken);
    };
    if begins_word(c) {
        Piece::Token(TokenKind::Lifetime, word_end(after))
    } else {
        Piece::Fault(LexWhy::NoToken)
    }
}

/// A number, whose first character is a digit.
fn number(text: &str) -> Piece<'_>
    requires { BeginsWithDigit (chars text.now) }
    ensures { IsPiece result (chars text.now) }
{
    match number_of(text) {
        Some(value) => Piece::Token(TokenKind::Number(value), word_end(text)),
        None => Piece::Fault(LexWhy::BadNumber),
    }
}

/// The piece at the front of a text.
pub fn next_piece(text: &str) -> Piece<'_>
    ensures { IsPiece result (chars text.now) }
{
    match opening_of(text) {
        Opening::End => Piece::End,
        Opening::Space(rest) => Piece::Gap(rest),
        Opening::Line(rest) => Piece::Gap(line_end(rest)),
        Opening::Block(rest) => block_comment(rest),
        Opening::Word(rest) => Piece::Token(TokenKind::Word, word_end(rest)),
        Opening::Quote(rest) => lifetime(rest),
        Opening::Digit => number(text),
        Opening::Arrow(rest) => Piece::Token(TokenKind::Arrow, rest),
        Opening::Punct(c, rest) => Piece::Token(TokenKind::Punct(c), rest),
        Opening::Nothing => Piece::Fault(LexWhy::NoToken),
    }
}
