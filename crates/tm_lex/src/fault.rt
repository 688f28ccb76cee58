/// Why no token begins at a byte.
#[derive(Clone, Copy, PartialEq, Eq, Debug)]
pub enum LexWhy {
    /// No token begins with the character.
    NoToken,
    /// A run of word characters that begins with an ASCII digit spells no number below 2^128.
    BadNumber,
    /// A `/*` has no matching `*/`. It is the outermost such `/*`.
    OpenComment,
}

/// Why a text has no tokens.
#[derive(Clone, Copy, PartialEq, Eq, Debug)]
pub enum LexErr {
    /// At this byte, counted from 0, the first past white space and comments, no token begins.
    At(u32, LexWhy),
    /// There wasn't enough memory.
    Memory,
}
