ghost use Rattle.std.specs.Prelude.{◌≡◌};
ghost use Rattle.tm_base.specs.Limits.{limit_number, limit_word};

/// What there may be too many of, in the order in which counts are asked at one place.
#[derive(Clone, Copy, PartialEq, Eq, Debug)]
pub enum LimitKind {
    /// Bytes of a question file.
    FileBytes,
    /// Definitions of a file.
    Definitions,
    /// Questions of a file.
    Questions,
    /// Items `lifetime` of a file.
    Lifetimes,
    /// Lifetime parameters of one definition.
    Parameters,
    /// Type parameters of one definition.
    TypeParameters,
    /// Fields of one definition, over all its variants.
    Fields,
    /// Variants of one enum.
    Variants,
    /// Types around a type, and the type itself, as written.
    Nesting,
    /// Types that are written in one outermost type, itself counted.
    TypeNodes,
    /// The length of an array type.
    ArrayLength,
    /// Bytes of one name, or of one lifetime with its quote.
    NameBytes,
    /// Named closed types that the questions lead to.
    NamedTypes,
    /// Types that are written in the canonical text of one closed type, itself counted.
    ClosedNodes,
    /// Reference types that the questions lead to.
    References,
    /// Types by value around a type, and the type itself.
    Depth,
    /// Cells of all words of one refutation.
    RefutationCells,
    /// Bytes of a refutation with its file.
    TextBytes,
    /// Types of one matrix.
    MatrixTypes,
}

impl LimitKind {
    /// The most that the limit lets pass.
    pub const fn number(self) -> u32
        ensures { result ≡ limit_number self }
    {
        match self {
            LimitKind::FileBytes => 1_048_576,
            LimitKind::Definitions => 256,
            LimitKind::Questions => 256,
            LimitKind::Lifetimes => 16,
            LimitKind::Parameters => 4,
            LimitKind::TypeParameters => 4,
            LimitKind::Fields => 256,
            LimitKind::Variants => 256,
            LimitKind::Nesting => 32,
            LimitKind::TypeNodes => 64,
            LimitKind::ArrayLength => 4_294_967_295,
            LimitKind::NameBytes => 64,
            LimitKind::NamedTypes => 1024,
            LimitKind::ClosedNodes => 256,
            LimitKind::References => 64,
            LimitKind::Depth => 64,
            LimitKind::RefutationCells => 16_777_216,
            LimitKind::TextBytes => 67_108_864,
            LimitKind::MatrixTypes => 64,
        }
    }

    /// The word that the limit is reported by.
    pub fn word(self) -> &'static str
        ensures { result.now ≡ limit_word self }
    {
        match self {
            LimitKind::FileBytes => "file-bytes",
            LimitKind::Definitions => "definitions",
            LimitKind::Questions => "questions",
            LimitKind::Lifetimes => "lifetimes",
            LimitKind::Parameters => "parameters",
            LimitKind::TypeParameters => "type-parameters",
            LimitKind::Fields => "fields",
            LimitKind::Variants => "variants",
            LimitKind::Nesting => "nesting",
            LimitKind::TypeNodes => "type-nodes",
            LimitKind::ArrayLength => "array-length",
            LimitKind::NameBytes => "name-bytes",
            LimitKind::NamedTypes => "named-types",
            LimitKind::ClosedNodes => "closed-nodes",
            LimitKind::References => "references",
            LimitKind::Depth => "depth",
            LimitKind::RefutationCells => "refutation-cells",
            LimitKind::TextBytes => "text-bytes",
            LimitKind::MatrixTypes => "matrix-types",
        }
    }
}

/// What is wrong with a name or a definition, in the order in which faults are asked at one place.
#[derive(Clone, Copy, PartialEq, Eq, Debug)]
pub enum NameWhy {
    /// The name or lifetime was already given in the same list.
    Twice,
    /// No definition has the type's name.
    Unknown,
    /// The type isn't given as many lifetimes as its definition has parameters.
    Arity,
    /// No declared lifetime and no parameter in sight has the name.
    Lifetime,
    /// The discriminant doesn't fit, or an earlier variant has it.
    Discriminant,
    /// The definition holds itself by value.
    Infinite,
    /// The representation isn't one for such a definition.
    BadRepr,
}
