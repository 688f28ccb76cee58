/// What a token is.
#[derive(Clone, Copy, PartialEq, Eq, Debug)]
pub enum TokenKind {
    /// A name or a keyword.
    Word,
    /// A word behind a `'`.
    Lifetime,
    /// A number with its value.
    Number(u128),
    /// One of the bytes `{ } ( ) [ ] < > , ; : = & ! # -`.
    Punct(u8),
    /// The mark `=>`.
    Arrow,
}

/// A token of a text, from the byte `start` up to and without the byte `end`, which are counted from
/// the text's first byte, 0.
#[derive(Clone, Copy, PartialEq, Eq, Debug)]
pub struct Token {
    pub kind: TokenKind,
    pub start: u32,
    pub end: u32,
}
