ghost use Rattle.std.specs.Prelude.{◌≡◌, ◌∷◌, [], ℕ, MatchOption};
ghost use Rattle.std.specs.Str.{chars};
ghost use Rattle.tm_lex.specs.Characters.{bytes_of};
ghost use Rattle.tm_lex.specs.Lexes.{unmarked};

/// The first character of a text, and what stands behind it.
pub fn front(text: &str) -> Option<(char, &str)>
    ensures { MatchOption result (chars text.now ≡ [])
        (λ found. chars text.now ≡ found.0 ∷ chars found.1.now) }
{
    let mut characters = text.chars();
    match characters.next() {
        None => None,
        Some(first) => Some((first, characters.as_str())),
    }
}

/// A text without a byte order mark at its front.
pub fn past_mark(text: &str) -> &str
    ensures { chars result.now ≡ unmarked (chars text.now) }
{
    match front(text) {
        Some(('\u{feff}', rest)) => rest,
        _ => text,
    }
}

/// How many bytes a text has.
pub fn size(text: &str) -> usize
    ensures { result ≡ bytes_of (chars text.now) }
{
    text.len()
}
