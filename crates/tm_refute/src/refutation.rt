use tm_base::{List, LocalRule, RefId, Word};

/// A word, and how far a type goes along with it at most.
#[derive(Debug, Drop)]
pub struct Piece {
    /// The cells of a value, from its first byte on.
    pub word: Word,
    /// The place, in bytes from 0, of the last cell that is asked. Where the word, fitted to the type,
    /// is shorter, all of it is asked.
    pub offset: u32,
}

/// Why two references fail at a depth.
#[derive(Debug, Drop)]
pub enum Proof {
    /// They break this local rule, and none before it.
    Local(LocalRule),
    /// A value of the source's pointee isn't one of the target's.
    Forward(Piece),
    /// The target is `&mut`, and a value of its pointee isn't one of the source's.
    Reverse(Piece),
}

/// Two references of which the one may not be taken as the other, as so many levels of pointees show.
#[derive(Debug, Drop)]
pub struct Entry {
    /// The reference type of the source.
    pub source: RefId,
    /// The reference type of the target.
    pub target: RefId,
    /// How many pointees down it shows: 0 exactly where a local rule is broken.
    pub depth: u32,
    /// Why.
    pub proof: Proof,
}

/// Why the answer to a question without `validity` isn't yes.
#[derive(Debug, Drop)]
pub struct Refutation {
    /// A value of the source that isn't one of the target.
    pub top: Piece,
    /// The references that the words rest on, in any order.
    pub entries: List<Entry>,
}
