use tm_base::{LimitKind, NameWhy};

/// A place in a question file.
#[derive(Clone, Copy, PartialEq, Eq, Debug)]
pub struct At {
    /// How many bytes of the file stand before the place.
    pub byte: u32,
    /// The line, counted from 1: one more than the number of bytes 0A before the place.
    pub line: u32,
}

/// Why a file gets no report.
#[derive(Clone, Copy, PartialEq, Eq, Debug)]
pub enum FileFault {
    /// The file isn't UTF-8; the place is behind its longest front that is.
    NotUtf8(At),
    /// No token begins at the place.
    NoToken(At),
    /// The run of digits and letters that begins at the place is no number.
    BadNumber(At),
    /// The `/*` at the place has no match.
    OpenComment(At),
    /// The grammar doesn't go on with the token that begins at the place.
    Unexpected(At),
    /// The grammar wants more where the file ends; the place is behind its last byte.
    EndOfFile(At),
    /// The file has more of something than the limit lets pass. The place is where the first token
    /// begins that is too many, if one token is.
    Passed(LimitKind, Option<At>),
    /// The name or definition whose token begins at the place is wrong.
    Names(NameWhy, At),
    /// The line of a refutation, counted from 1, isn't in form.
    BadRefutation(u32),
    /// The file has no question with the number, which is as it was asked for.
    NoQuestion(u32),
}
