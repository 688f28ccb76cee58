use crate::boxed::Boxed;
use crate::cell::RefId;
use crate::list::List;

/// A layout: which words a type has, said by sequence, alternative and repetition.
#[derive(Debug, Drop)]
pub enum Tree {
    /// No word.
    Never,
    /// One initialised byte between two numbers, both of them taken in.
    Range(u8, u8),
    /// One byte that may be uninitialised.
    Pad,
    /// All bytes of one reference that the reference type takes.
    Ref(RefId),
    /// A word of each part, one behind the other; without parts the empty word.
    Seq(List<Tree>),
    /// A word of one of the parts; without parts no word.
    Alt(List<Tree>),
    /// As many words of the part, one behind the other, as the number says.
    Repeat(u32, Boxed<Tree>),
    /// What only a holder of the type's private fields may make: the part's words where private
    /// types are kept, else none.
    Private(Boxed<Tree>),
}
