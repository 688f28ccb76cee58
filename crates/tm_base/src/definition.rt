use crate::ground::{Ground, Primitive};
use crate::list::List;
use crate::text::Text;

/// The number of a definition: in a world the place in its list `defs`.
#[derive(Clone, Copy, PartialEq, Eq, Debug)]
pub struct DefId(
    /// Counted from 0; in a world below the length of `defs`.
    pub u32,
);

/// The number of a region: 0 is `'static`, then come the declared lifetimes in the file's order.
#[derive(Clone, Copy, PartialEq, Eq, Debug)]
pub struct RegionId(
    /// Counted from 0; in a world below the length of `regions`.
    pub u32,
);

/// The word that a definition begins with.
#[derive(Clone, Copy, PartialEq, Eq, Debug)]
pub enum Kind {
    /// All fields, one behind the other.
    Struct,
    /// One of the fields, each at the first byte.
    Union,
    /// One of the variants.
    Enum,
}

/// What the `repr` attributes of a definition say, taken together.
#[derive(Clone, Copy, PartialEq, Eq, Debug)]
pub struct Repr {
    /// `C` is written.
    pub c: bool,
    /// `transparent` is written; on a struct alone, and with nothing else.
    pub transparent: bool,
    /// The integer type of an enum's tag, of at most 64 bits, where one is written.
    pub tag: Option<Primitive>,
    /// The number of `packed` in bytes, a power of two up to 2^29, where it is written; never with
    /// `align`.
    pub packed: Option<u32>,
    /// The number of `align` in bytes, a power of two up to 2^29, where it is written.
    pub align: Option<u32>,
}

/// A field of a struct, a union or a variant.
#[derive(Debug, Drop)]
pub struct Field {
    /// The name as written; empty for a field of a tuple.
    pub name: Text,
    /// The field is written plain `pub`.
    pub public: bool,
}

/// A variant of an enum, with its discriminant. A struct or a union is one variant.
#[derive(Debug, Drop)]
pub struct Variant {
    /// The name as written; empty for a struct or a union.
    pub name: Text,
    /// The discriminant: within the tag's type, or within `i64` without one, and no other variant's
    /// of the enum; 0 for a struct or a union.
    pub value: i128,
    /// The fields as written; all variants of a definition have at most 256 together.
    pub fields: List<Field>,
}

/// A definition of a struct, a union or an enum.
#[derive(Debug, Drop)]
pub struct Def {
    /// The name as written.
    pub name: Text,
    /// Its first word.
    pub kind: Kind,
    /// What its `repr` attributes say.
    pub repr: Repr,
    /// One for a struct or a union, and at most 256 for an enum.
    pub variants: List<Variant>,
}

/// A named type: a definition with a region and a type for each of its parameters.
#[derive(Debug, Drop)]
pub struct NamedRow {
    /// The definition.
    pub def: DefId,
    /// The regions for the definition's lifetime parameters, in order.
    pub regions: List<RegionId>,
    /// The types for the definition's type parameters, in order.
    pub args: List<Ground>,
    /// The types of the fields, with regions and arguments put in: one list for each variant, and
    /// in it one type for each field.
    pub types: List<List<Ground>>,
}

/// A reference type.
#[derive(Debug, Drop)]
pub struct RefRow {
    /// It is `&mut`.
    pub mutable: bool,
    /// Its region.
    pub region: RegionId,
    /// What it points to.
    pub pointee: Ground,
}

/// An item `outlives`.
#[derive(Clone, Copy, PartialEq, Eq, Debug)]
pub struct Bound {
    /// The region that outlives the other.
    pub longer: RegionId,
    /// The region that is outlived.
    pub shorter: RegionId,
}
