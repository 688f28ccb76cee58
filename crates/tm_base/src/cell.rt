use crate::list::List;

/// The number of a reference type: in a world the place in its list `refs`. Cells may name any
/// number.
#[derive(Clone, Copy, PartialEq, Eq, Debug)]
pub struct RefId(
    /// Counted from 0; in a world below the length of `refs`.
    pub u32,
);

/// One byte of a type's memory, as far as it is known.
#[derive(Clone, Copy, PartialEq, Eq, Debug)]
pub enum Cell {
    /// An initialised byte.
    Byte(u8),
    /// An uninitialised byte.
    Uninit,
    /// One byte of a value of the reference type, with its number from 0, below a reference's size.
    Ptr(RefId, u8),
}

/// The cells of a value, from its first byte on.
pub type Word = List<Cell>;
