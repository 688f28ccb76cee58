ghost use Rattle.std.specs.Prelude.{◌≡◌, Some, None, ℕ, List};
ghost use Rattle.std.specs.Option.{option_map};
ghost use Rattle.std.specs.Str.{chars};
ghost use Rattle.tm_lex.specs.Characters.{IsRun};
ghost use Rattle.tm_lex.specs.Marks.{behind_bodies, IsMark};
ghost use Rattle.tm_lex.specs.Gaps.{is_white_space, is_in_line};
ghost use Rattle.tm_lex.specs.Pieces.{Fronts};

use crate::front::front;

/// Whether a character is white space.
pub fn is_white_space(c: char) -> bool
    ensures { result ≡ is_white_space c }
{
    matches!(
        c,
        '\u{9}'..='\u{d}' | ' ' | '\u{85}' | '\u{200e}' | '\u{200f}' | '\u{2028}' | '\u{2029}'
    )
}

/// What stands behind the rest of a line: from its U+000A on, or nothing.
#[tactic(auto, using(crate::proofs::RunLemmas::run_ends, crate::proofs::RunLemmas::run_stops, crate::proofs::RunLemmas::run_goes_on))]
pub fn line_end(text: &str) -> &str
    ensures { Fronts (IsRun is_in_line) (chars text.now) (chars result.now) }
{
    let mut rest = text;
    'run: while let Some((c, after)) = front(rest) {
        if c == '\n' {
            return rest;
        }
        rest = after;
    }
    rest
}

/// The mark at the front of a text inside a comment, and what stands behind it; `Other` is a character
/// that begins no mark.
pub enum Mark<'a> {
    End,
    Close(&'a str),
    Open(&'a str),
    Other(&'a str),
}

fn next_mark(text: &str) -> Mark<'_>
    ensures { IsMark result (chars text.now) }
{
    let Some((first, rest)) = front(text) else {
        return Mark::End;
    };
    let Some((second, after)) = front(rest) else {
        return Mark::End;
    };
    match (first, second) {
        ('*', '/') => Mark::Close(after),
        ('/', '*') => Mark::Open(after),
        _ => Mark::Other(rest),
    }
}

/// What stands behind the `*/` that matches a `/*` right before the text.
pub fn comment_end(text: &str) -> Option<&str>
    ensures { option_map (λ rest. chars rest.now) result ≡ behind_bodies 0 (chars text.now) }
{
    let mut depth: usize = 0;
    let mut rest = text;
    'marks: loop {
        match next_mark(rest) {
            Mark::End => return None,
            Mark::Close(after) => {
                if depth == 0 {
                    return Some(after);
                }
                depth -= 1;
                rest = after;
            }
            Mark::Open(after) => {
                depth += 1;
                rest = after;
            }
            Mark::Other(after) => rest = after,
        }
    }
}
