/// A name in a type.
///
/// `place` is the token, and `lifetimes` and `types` how many of them are given to it.
#[derive(Clone, Copy, Debug)]
pub struct NameMention {
    pub place: u32,
    pub lifetimes: usize,
    pub types: usize,
}

/// What a type mentions: a definition's or a type parameter's name, or the lifetime at a place.
#[derive(Clone, Copy, Debug)]
pub enum Mention {
    Name(NameMention),
    Life(u32),
}
