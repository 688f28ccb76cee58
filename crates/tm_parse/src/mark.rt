/// What begins where something is counted.
#[derive(Clone, Copy)]
pub enum Mark {
    Definition,
    Question,
    Lifetime,
    /// A lifetime among a definition's parameters.
    Parameter,
    /// A type's name among a definition's parameters.
    TypeParameter,
    Field,
    Variant,
    /// A type, with how many types are around it.
    TypeWithin(u32),
}
