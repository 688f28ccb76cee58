use crate::type_set::TypeSet;

/// The types that a file's questions lead to, as far as they are numbered.
///
/// A type's number is its place in its set.
#[derive(Debug, Drop)]
pub struct Found {
    /// The named types.
    pub named: TypeSet,
    /// The reference types.
    pub refs: TypeSet,
}
