ghost use Rattle.std.specs.Prelude.{◌≡◌, false};
ghost use Rattle.tm_base.specs.declared.cell.RefId.{RefId};
ghost use Rattle.tm_base.specs.Expanded.{Fields, never, nonzero, phantom, prim, ref, tuple, unit};
ghost use Rattle.tm_base.specs.Faults.{has_align};
ghost use Rattle.tm_base.specs.Layout.{prim_size};
ghost use Rattle.tm_base.specs.Parts.{is_cell, some_field};
ghost use Rattle.tm_base.specs.Profiles.{pointer_size};
ghost use Rattle.tm_layout.specs.Known.{IsFactsOf};

pub use crate::definitions::defined;
pub use crate::placing::places;
pub use crate::wrappers::{array, wrapped};
use tm_base::{Primitive, Profile, Why};

/// What is known of a type.
///
/// `fault` is its own first cause, where it is at fault; `refusal` the cause for which it has no layout: its
/// own, or else that of its first part that has none. `nullable`: `Option` of it is listed. `aligned` and
/// `interior`: it is or holds by value a type with `align`, a `Cell` or an `UnsafeCell`. `size` and `align`, in
/// bytes, and `weight` are those of a type that has a layout; of others they say nothing.
#[derive(Clone, Copy, Debug)]
pub struct Facts {
    pub fault: Option<Why>,
    pub refusal: Option<Why>,
    pub nullable: bool,
    pub aligned: bool,
    pub interior: bool,
    pub size: u32,
    pub align: u32,
    pub weight: u32,
}

/// What is known of a type that is never at fault and has no parts.
fn whole(nullable: bool, size: u32, align: u32, weight: u32) -> Facts
    ensures { result ≡ record {
      fault = None;
      refusal = None;
      nullable = nullable;
      aligned = false;
      interior = false;
      size = size;
      align = align;
      weight = weight;
    } }
{
    Facts {
        fault: None,
        refusal: None,
        nullable,
        aligned: false,
        interior: false,
        size,
        align,
        weight,
    }
}

/// The size of an address, in bytes.
fn pointer_size(profile: Profile) -> u32
    ensures { result ≡ pointer_size profile }
{
    match profile {
        Profile::Le64 | Profile::Be64 => 8,
        Profile::Le32 => 4,
    }
}

/// The size of a primitive, in bytes.
pub fn primitive_size(profile: Profile, p: Primitive) -> u32
    ensures { result ≡ prim_size profile p }
{
    match p {
        Primitive::Bool | Primitive::U8 | Primitive::I8 => 1,
        Primitive::U16 | Primitive::I16 => 2,
        Primitive::U32 | Primitive::I32 | Primitive::Char | Primitive::F32 => 4,
        Primitive::U64 | Primitive::I64 | Primitive::F64 => 8,
        Primitive::Usize | Primitive::Isize => pointer_size(profile),
        Primitive::U128 | Primitive::I128 => 16,
    }
}

/// What is known of a primitive.
pub fn primitive(profile: Profile, p: Primitive) -> Facts
    ensures { IsFactsOf (prim profile p) result }
{
    let size = primitive_size(profile, p);
    whole(false, size, size, size)
}

/// What is known of `!`, `()` and `PhantomData`.
pub fn empty() -> Facts
    ensures never { IsFactsOf never result }
    ensures unit { IsFactsOf unit result }
    ensures phantom { IsFactsOf phantom result }
{
    whole(false, 0, 1, 1)
}

/// What is known of a reference.
pub fn reference(profile: Profile) -> Facts
    ensures { (r : RefId) → IsFactsOf (ref profile r) result }
{
    let size = pointer_size(profile);
    whole(true, size, size, size)
}

/// What is known of a `NonZero`.
pub fn nonzero(profile: Profile, p: Primitive) -> Facts
    ensures { IsFactsOf (nonzero profile p) result }
{
    let size = primitive_size(profile, p);
    whole(true, size, size, size)
}

/// What is known of a tuple, by whether an element is or holds a type with `align`, or a cell.
pub fn tuple(aligned: bool, interior: bool) -> Facts
    ensures { (members : Fields) → aligned ≡ some_field has_align members → interior
        ≡ some_field is_cell members → IsFactsOf (tuple members) result }
{
    Facts {
        fault: Some(Why::Tuple),
        refusal: Some(Why::Tuple),
        aligned,
        interior,
        ..whole(false, 0, 1, 1)
    }
}
