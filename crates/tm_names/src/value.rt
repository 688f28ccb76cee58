/// A discriminant: `AtLeastZero(n)` is n, and `BelowZero(n)` is -1 - n.
///
/// So each whole number from -2^128 to 2^128 - 1 is one.
#[derive(Clone, Copy, PartialEq, Eq, Debug)]
pub enum Value {
    AtLeastZero(u128),
    BelowZero(u128),
}
