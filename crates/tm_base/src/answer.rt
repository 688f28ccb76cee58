use crate::cell::{RefId, Word};
use crate::ground::Ground;

/// Why a question is answered no, in the order in which the rules are asked.
///
/// The first three speak of the types as a whole, the others of one cell of a source word.
#[derive(Clone, Copy, PartialEq, Eq, Debug)]
pub enum Rule {
    /// The target has no value.
    TargetUninhabited,
    /// The target has no value that can be made without touching private fields.
    TargetPrivate,
    /// Validity is assumed, and no value of the source is one of the target.
    NoCommonValue,
    /// The cell lies behind the source's last byte.
    TooBig,
    /// The cell is uninitialised, and the target wants more there.
    NeedsInit,
    /// The cell is a byte, and the target wants another byte there.
    ByteValue,
    /// The cell is a byte, and the target wants a reference there.
    BytesForReference,
    /// The cell begins a reference, and the target wants none there.
    ReferenceForBytes,
    /// [`LocalRule::MoreUnique`] fails for the reference that begins at the cell.
    RefMoreUnique,
    /// [`LocalRule::TooBig`] fails for it.
    RefTooBig,
    /// [`LocalRule::Alignment`] fails for it.
    RefAlignment,
    /// [`LocalRule::Interior`] fails for it.
    RefInterior,
    /// [`LocalRule::Lifetime`] fails for it.
    RefLifetime,
    /// Its pointee can't be taken as the target's pointee, or the other way round behind `&mut`.
    RefPointee,
}

/// One of the two types of a question.
#[derive(Clone, Copy, PartialEq, Eq, Debug)]
pub enum Side {
    /// The type whose value is there.
    Source,
    /// The type as which it is taken.
    Target,
}

/// Why a type has no layout that is guaranteed, or is too large, in the order in which causes are
/// asked.
#[derive(Clone, Copy, PartialEq, Eq, Debug)]
pub enum Why {
    /// A definition has no representation that fixes its layout.
    NoRepr,
    /// The type is a tuple.
    Tuple,
    /// It is an `Option` whose argument isn't one that null stands beside.
    OptionNotListed,
    /// An enum with `C` alone has a discriminant that is no `i32`.
    CEnumRange,
    /// A transparent struct has two fields or more that aren't of size 0 and alignment 1.
    TransparentFields,
    /// A packed type holds by value a type with `align`.
    PackedHoldsAlign,
    /// Its size or its weight is above the limit.
    TooLarge,
}

/// What a source reference and a target reference are asked before their pointees' values, in
/// order.
#[derive(Clone, Copy, PartialEq, Eq, Debug)]
pub enum LocalRule {
    /// A shared reference isn't taken as `&mut`.
    MoreUnique,
    /// The target's pointee isn't larger than the source's.
    TooBig,
    /// The target's pointee isn't aligned more strictly, unless alignment is assumed.
    Alignment,
    /// The target is `&mut`, or neither pointee is or holds by value a `Cell` or `UnsafeCell`.
    Interior,
    /// The source's region outlives the target's, unless lifetimes are assumed.
    Lifetime,
}

/// A source reference that a target reference doesn't take, and at which depth of pointees that
/// shows.
#[derive(Clone, Copy, PartialEq, Eq, Debug)]
pub struct RefFault {
    /// The reference type of the source.
    pub source: RefId,
    /// The reference type of the target.
    pub target: RefId,
    /// How many pointees down the fault lies: 0 where a rule on the two references themselves
    /// fails, and at most 4096 as a world has at most 64 reference types.
    pub depth: u32,
}

/// The answer to a question.
#[derive(Debug, Drop)]
pub enum Answer {
    /// Each value of the source is one of the target; or validity is assumed and the source has
    /// none.
    Yes,
    /// Validity is assumed, and this source word, fitted to the target's size, is valid for the
    /// target.
    YesBecause(Word),
    /// One of the first three rules holds.
    No(Rule),
    /// The rule; the place, in bytes from 0, of the first cell that no word of the target goes on
    /// with; the source word, with as many cells as the source has bytes; and for the six rules on
    /// references, and for no other, which references they are.
    NoAt(Rule, u32, Word, Option<RefFault>),
    /// The side, the cause, and the type at fault that this side reaches. It is the target only
    /// where the source has no type at fault.
    Refused(Side, Why, Ground),
}
