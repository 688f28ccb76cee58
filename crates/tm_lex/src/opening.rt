ghost use Rattle.std.specs.Prelude.{◌≡◌, ◌∷◌};
ghost use Rattle.std.specs.Str.{chars};
ghost use Rattle.tm_lex.specs.Tokens.{is_punct};
ghost use Rattle.tm_lex.specs.Pieces.{IsOpening};

use crate::front::front;
use crate::gaps::is_white_space;
use crate::words::begins_word;

/// How a text begins, and what stands behind that.
pub enum Opening<'a> {
    End,
    Space(&'a str),
    Line(&'a str),
    Block(&'a str),
    Word(&'a str),
    Quote(&'a str),
    Digit,
    Arrow(&'a str),
    Punct(u8, &'a str),
    Nothing,
}

/// Whether the character is a token of its own.
fn is_punct(c: char) -> bool
    ensures { result ≡ is_punct c }
{
    matches!(
        c,
        '{' | '}'
            | '('
            | ')'
            | '['
            | ']'
            | '<'
            | '>'
            | ','
            | ';'
            | ':'
            | '='
            | '&'
            | '!'
            | '#'
            | '-'
    )
}

/// How a text begins that has `/` before this rest.
fn behind_slash(rest: &str) -> Opening<'_>
    ensures { IsOpening result (47 ∷ chars rest.now) }
{
    let Some((second, after)) = front(rest) else {
        return Opening::Nothing;
    };
    if second == '/' {
        return Opening::Line(after);
    }
    if second == '*' {
        return Opening::Block(after);
    }
    Opening::Nothing
}

/// How a text begins that has `=` before this rest.
fn behind_equals(rest: &str) -> Opening<'_>
    ensures { IsOpening result (61 ∷ chars rest.now) }
{
    match front(rest) {
        Some(('>', after)) => Opening::Arrow(after),
        _ => Opening::Punct(b'=', rest),
    }
}

/// How a text begins.
pub fn opening_of(text: &str) -> Opening<'_>
    ensures { IsOpening result (chars text.now) }
{
    let Some((first, rest)) = front(text) else {
        return Opening::End;
    };
    match first {
        '/' => behind_slash(rest),
        '=' => behind_equals(rest),
        '\'' => Opening::Quote(rest),
        c if is_white_space(c) => Opening::Space(rest),
        c if begins_word(c) => Opening::Word(rest),
        c if c.is_ascii_digit() => Opening::Digit,
        c if is_punct(c) => Opening::Punct(c as u8, rest),
        _ => Opening::Nothing,
    }
}
