use crate::boxed::Boxed;
use crate::cell::RefId;
use crate::list::List;

/// The number of a named type: in a world the place in its list `named`.
#[derive(Clone, Copy, PartialEq, Eq, Debug)]
pub struct NamedId(
    /// Counted from 0; in a world below the length of `named`.
    pub u32,
);

/// A type that is written as one word and has no parts.
#[derive(Clone, Copy, PartialEq, Eq, Debug)]
pub enum Primitive {
    /// One byte, 0 or 1.
    Bool,
    /// Four bytes: a number up to 0x10FFFF that is no surrogate.
    Char,
    /// One byte without a sign.
    U8,
    /// Two bytes without a sign.
    U16,
    /// Four bytes without a sign.
    U32,
    /// Eight bytes without a sign.
    U64,
    /// Sixteen bytes without a sign.
    U128,
    /// As many bytes as an address has, without a sign.
    Usize,
    /// One byte with a sign.
    I8,
    /// Two bytes with a sign.
    I16,
    /// Four bytes with a sign.
    I32,
    /// Eight bytes with a sign.
    I64,
    /// Sixteen bytes with a sign.
    I128,
    /// As many bytes as an address has, with a sign.
    Isize,
    /// A float of four bytes.
    F32,
    /// A float of eight bytes.
    F64,
}

/// A generic type of the standard library with one type argument.
#[derive(Clone, Copy, PartialEq, Eq, Debug)]
pub enum Wrapper {
    /// The argument's value, or none.
    Option,
    /// The argument's bytes, initialised or not.
    MaybeUninit,
    /// The argument's value, which isn't dropped.
    ManuallyDrop,
    /// The argument's value, with sums that wrap.
    Wrapping,
    /// The argument's value, which may change behind a shared reference.
    Cell,
    /// What `Cell` is made of.
    UnsafeCell,
    /// No bytes, whatever the argument is.
    PhantomData,
}

/// A closed type: each of its lifetimes is a declared one or `'static`, and it has no parameter.
#[derive(Debug, Drop)]
pub enum Ground {
    /// A primitive.
    Prim(Primitive),
    /// `!`.
    Never,
    /// `()`.
    Unit,
    /// A tuple with its elements; in a world it has one at least.
    Tuple(List<Ground>),
    /// An array with its element's type and how many elements it has.
    Array(Boxed<Ground>, u32),
    /// A definition with what it is given.
    Named(NamedId),
    /// `NonZero` of a primitive, which in a world is an integer.
    NonZero(Primitive),
    /// A generic type of the standard library with its argument.
    Wrap(Wrapper, Boxed<Ground>),
    /// A reference.
    Ref(RefId),
}
