ghost use Rattle.std.specs.Prelude.{◌≡◌, ◌<◌, not};
ghost use Rattle.tm_parse.specs.Classes.{alike, among, code};
ghost use Rattle.tm_parse.specs.Limits.{is_number_or_sign};

use tm_base::{Primitive, Wrapper};

/// What the grammar tells apart in a token.
///
/// Words that are keywords only in places, as `ask` and `union`, have classes of their own; elsewhere
/// they are names.
#[derive(Clone, Copy)]
pub enum Class {
    OpenBrace,
    CloseBrace,
    OpenParen,
    CloseParen,
    OpenBracket,
    CloseBracket,
    Less,
    Greater,
    Comma,
    Semicolon,
    Colon,
    Equals,
    Ampersand,
    Bang,
    Hash,
    Minus,
    Arrow,
    /// A number, with its value.
    Number(u128),
    /// A lifetime, as `'a`.
    Lifetime,
    /// The name of an integer type, as `u8`.
    Integer(Primitive),
    /// `bool`, `char`, `f32` or `f64`.
    Scalar(Primitive),
    /// A name such as `NonZeroU8`, with its integer type.
    Alias(Primitive),
    /// A name such as `Option`.
    Generic(Wrapper),
    /// `NonZero`.
    NonZero,
    /// `str`, `Box` or `NonNull`: no definition may have this name.
    Foreign,
    /// `crate`.
    Crate,
    /// `enum`.
    Enum,
    /// `mut`.
    Mut,
    /// `pub`.
    Pub,
    /// `self`.
    Myself,
    /// `struct`.
    Struct,
    /// `super`.
    Super,
    /// Any other word that is no name, as `fn` or `_`.
    Keyword,
    /// `align`.
    Align,
    /// `alignment`.
    Alignment,
    /// `ask`.
    Ask,
    /// `assume`.
    Assume,
    /// `C`.
    C,
    /// `derive`.
    Derive,
    /// `lifetime`.
    Declare,
    /// `lifetimes`.
    Lifetimes,
    /// `outlives`.
    Outlives,
    /// `packed`.
    Packed,
    /// `repr`.
    Repr,
    /// `safety`.
    Safety,
    /// `transparent`.
    Transparent,
    /// `union`.
    Union,
    /// `validity`.
    Validity,
    /// Any other word.
    Name,
}

impl Class {
    /// Any number.
    pub const NUMBER: Class = Class::Number(0);
    /// The name of any integer type.
    pub const INTEGER: Class = Class::Integer(Primitive::U8);
    /// `bool`, `char`, `f32` or `f64`.
    pub const SCALAR: Class = Class::Scalar(Primitive::Bool);
    /// A name such as `NonZeroU8`, of any integer type.
    pub const ALIAS: Class = Class::Alias(Primitive::U8);
    /// A name such as `Option`, of any wrapper.
    pub const GENERIC: Class = Class::Generic(Wrapper::Option);

    /// A number for each class, whatever the class carries.
    fn code(self) -> u8
        ensures { result ≡ code self }
    {
        match self {
            Class::OpenBrace => 0,
            Class::CloseBrace => 1,
            Class::OpenParen => 2,
            Class::CloseParen => 3,
            Class::OpenBracket => 4,
            Class::CloseBracket => 5,
            Class::Less => 6,
            Class::Greater => 7,
            Class::Comma => 8,
            Class::Semicolon => 9,
            Class::Colon => 10,
            Class::Equals => 11,
            Class::Ampersand => 12,
            Class::Bang => 13,
            Class::Hash => 14,
            Class::Minus => 15,
            Class::Arrow => 16,
            Class::Number(_) => 17,
            Class::Lifetime => 18,
            Class::Integer(_) => 19,
            Class::Scalar(_) => 20,
            Class::Alias(_) => 21,
            Class::Generic(_) => 22,
            Class::NonZero => 23,
            Class::Foreign => 24,
            _ => self.word_code(),
        }
    }

    /// The number of a class of one word, and of `Keyword`; of any other that of `Name`.
    fn word_code(self) -> u8
        ensures { 24 < code self → result ≡ code self }
    {
        match self {
            Class::Crate => 25,
            Class::Enum => 26,
            Class::Mut => 27,
            Class::Pub => 28,
            Class::Myself => 29,
            Class::Struct => 30,
            Class::Super => 31,
            Class::Keyword => 32,
            Class::Align => 33,
            Class::Alignment => 34,
            Class::Ask => 35,
            Class::Assume => 36,
            Class::C => 37,
            Class::Derive => 38,
            Class::Declare => 39,
            Class::Lifetimes => 40,
            Class::Outlives => 41,
            Class::Packed => 42,
            Class::Repr => 43,
            Class::Safety => 44,
            Class::Transparent => 45,
            Class::Union => 46,
            Class::Validity => 47,
            _ => 48,
        }
    }

    /// Whether the grammar doesn't tell the two apart: what they carry isn't looked at.
    pub fn is_alike(self, other: Class) -> bool
        ensures { result ≡ alike self other }
    {
        self.code() == other.code()
    }

    /// Whether one of the classes is alike.
    pub fn is_among(self, classes: &[Class]) -> bool
        ensures { result ≡ among classes.now self }
    {
        match classes {
            [] => false,
            [first, rest @ ..] => first.is_alike(self) || self.is_among(rest),
        }
    }

    /// Whether this is a word or a lifetime, and neither a sign nor a number.
    pub fn is_name(self) -> bool
        ensures { result ≡ not (is_number_or_sign self) }
    {
        self.code() > 17
    }
}
