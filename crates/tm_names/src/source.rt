ghost use Rattle.std.specs.Prelude.{◌≡◌, ◌<◌, IfSome, length, slice_range};
ghost use Rattle.tm_names.specs.Written.{first_among, is_among, is_reserved, is_same, is_static};
ghost use Rattle.tm_names.specs.Source.{names_in};

use tm_base::Profile;
use tm_lex::Token;

/// A text with its tokens, and the profile for which it is read.
#[derive(Clone, Copy)]
pub struct Source<'a> {
    pub text: &'a str,
    pub tokens: &'a [Token],
    pub profile: Profile,
}

/// The bytes of a text from one place up to another, as far as there are any.
fn piece(text: &str, start: u32, end: u32) -> &[u8]
    ensures { result.now ≡ slice_range text.now start end }
{
    let bytes = text.as_bytes();
    let end = bytes.len().min(end as usize);
    let start = end.min(start as usize);
    &bytes[start..end]
}

impl<'a> Source<'a> {
    /// The bytes of the token at a place; none where there is no token.
    pub fn name(&self, place: u32) -> &'a [u8]
        ensures { result.now ≡ names_in self.now place }
    {
        match self.tokens.get(place as usize) {
            None => &[],
            Some(token) => piece(self.text, token.start, token.end),
        }
    }

    /// Whether the tokens at two places have one name.
    pub fn is_same(&self, place: u32, other: u32) -> bool
        ensures { result ≡ is_same (names_in self.now) place other }
    {
        self.name(place) == self.name(other)
    }

    /// Whether one of these places has the name of the token at a place.
    pub fn is_among(&self, places: &[u32], place: u32) -> bool
        ensures { result ≡ is_among (names_in self.now) places.now place }
    {
        for other in places {
            if self.is_same(*other, place) {
                return true;
            }
        }
        false
    }

    /// The number of the first of these places that has the name of the token at a place.
    pub fn first_among(&self, places: &[u32], place: u32) -> Option<usize>
        ensures first { result ≡ first_among (names_in self.now) places.now place }
        ensures within { IfSome result (λ number. number < length places.now) }
    {
        for (number, other) in places.iter().enumerate() {
            if self.is_same(*other, place) {
                return Some(number);
            }
        }
        None
    }

    /// Whether the token at a place is `'static`.
    pub fn is_static(&self, place: u32) -> bool
        ensures { result ≡ is_static (names_in self.now) place }
    {
        self.name(place) == "'static".as_bytes()
    }

    /// Whether the token at a place is `'static` or `'_`, which can't be declared.
    pub fn is_reserved(&self, place: u32) -> bool
        ensures { result ≡ is_reserved (names_in self.now) place }
    {
        self.is_static(place) || self.name(place) == "'_".as_bytes()
    }
}
