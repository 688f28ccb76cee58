ghost use Rattle.std.specs.Prelude.{◌≡◌};
ghost use Rattle.tm_auto.specs.Least.{first_cell, least_of};
ghost use Rattle.tm_auto.specs.Sets.{passes, symbol_of};

use tm_base::{Cell, RefId, RefTest};

/// What an edge takes: a byte of a range, both of its ends taken in; a byte that nothing is asked of
/// and that may be uninitialised, which is the default; or the byte of a place of a reference.
#[derive(Clone, Copy, PartialEq, Eq, Debug, Default)]
pub enum Label {
    Bytes(u8, u8),
    #[default]
    Free,
    Leaf(RefId, u8),
}

impl Label {
    /// Whether an edge with the label passes the symbol: a range of bytes as a whole or not at all, and
    /// a reference's byte where the test holds and the place is the same.
    pub fn takes<M: RefTest>(self, refs: &M, symbol: Symbol) -> bool
        ensures { result ≡ passes (M.test refs.now) self symbol }
    {
        match (self, symbol) {
            (Label::Bytes(low, high), Symbol::Bytes(first, last)) => low <= first && last <= high,
            (Label::Free, Symbol::Bytes(_, _)) => true,
            (Label::Free, Symbol::Uninit) => true,
            (Label::Leaf(target, place), Symbol::Ptr(source, k)) => {
                k == place && refs.holds(source, target)
            }
            _ => false,
        }
    }

    /// The least cell that an edge with the label takes, where each reference holds itself alone.
    pub(crate) fn least(self) -> Cell
        ensures { result ≡ least_of self }
    {
        match self {
            Label::Bytes(low, _) => Cell::Byte(low),
            Label::Free => Cell::Byte(0),
            Label::Leaf(reference, place) => Cell::Ptr(reference, place),
        }
    }
}

/// An edge from one state to another.
#[derive(Clone, Copy, PartialEq, Eq, Debug)]
pub struct Edge {
    pub from: u32,
    pub to: u32,
    pub label: Label,
}

/// What is read in one step: any byte of a range, both of its ends taken in; an uninitialised byte; or
/// the byte of a place of a reference.
#[derive(Clone, Copy, PartialEq, Eq, Debug)]
pub enum Symbol {
    Bytes(u8, u8),
    Uninit,
    Ptr(RefId, u8),
}

impl Symbol {
    /// The symbol of one cell.
    pub fn of(cell: Cell) -> Symbol
        ensures { result ≡ symbol_of cell }
    {
        match cell {
            Cell::Byte(byte) => Symbol::Bytes(byte, byte),
            Cell::Uninit => Symbol::Uninit,
            Cell::Ptr(reference, place) => Symbol::Ptr(reference, place),
        }
    }

    /// The least cell of a symbol.
    pub fn least(self) -> Cell
        ensures { result ≡ first_cell self }
    {
        match self {
            Symbol::Bytes(first, _) => Cell::Byte(first),
            Symbol::Uninit => Cell::Uninit,
            Symbol::Ptr(reference, place) => Cell::Ptr(reference, place),
        }
    }
}
