ghost use Rattle.std.specs.Prelude.{◌≡◌};
ghost use Rattle.tm_base.specs.Faults.{lacks_repr};
ghost use Rattle.tm_base.specs.Integers.{fits_signed};
ghost use Rattle.tm_layout.specs.Capped.{first_fault, weight_fault};
ghost use Rattle.tm_layout.specs.Defined.{lacks_range_in, layout_fault_in, own_fault_in, passes_i32_in, two_sized_in};

use crate::facts::Facts;
use crate::fields::only;
use crate::transparent::has_two_sized;
use tm_base::{Def, Kind, List, Repr, Variant, Why};

/// The greatest weight of a type that isn't too large.
const WEIGHT_LIMIT: u32 = 65_536;

/// The fault of a weight: that it is too large.
pub fn weight_fault(weight: u32) -> Option<Why>
    ensures { result ≡ weight_fault weight }
{
    if weight > WEIGHT_LIMIT {
        Some(Why::TooLarge)
    } else {
        None
    }
}

/// The first fault of a type: its own, or else its layout's where no part has a cause.
pub fn first_fault(own: Option<Why>, below: Option<Why>, layout: Option<Why>) -> Option<Why>
    ensures { result ≡ first_fault own below layout }
{
    match own {
        Some(why) => Some(why),
        None if below.is_some() => None,
        None => layout,
    }
}

/// Whether a definition lacks the representation that a layout asks for.
fn lacks_repr(kind: Kind, repr: Repr) -> bool
    ensures { result ≡ lacks_repr kind repr }
{
    match kind {
        Kind::Struct => !(repr.c || repr.transparent),
        Kind::Union => !repr.c,
        Kind::Enum => !(repr.c || repr.tag.is_some()),
    }
}

/// Whether a number is an `i32`.
fn is_i32(value: i128) -> bool
    ensures { result ≡ fits_signed 4 value }
{
    -0x8000_0000 <= value && value <= 0x7fff_ffff
}

/// Whether some discriminant is no `i32`.
fn passes_i32(variants: &[Variant]) -> bool
    ensures { result ≡ passes_i32_in variants.now }
{
    for variant in variants {
        if !is_i32(variant.value) {
            return true;
        }
    }
    false
}

/// Whether an enum with `C` and no integer has a discriminant that its tag doesn't hold.
fn lacks_range(def: &Def) -> bool
    ensures { result ≡ lacks_range_in def.now.kind def.now.repr def.now.variants }
{
    match def.kind {
        Kind::Enum => {
            def.repr.c && def.repr.tag.is_none() && passes_i32(def.variants.as_slice())
        }
        _ => false,
    }
}

/// The first of the faults of a definition that are asked whatever its fields are.
pub fn own_fault(def: &Def) -> Option<Why>
    ensures { result ≡ own_fault_in def.now }
{
    if lacks_repr(def.kind, def.repr) {
        Some(Why::NoRepr)
    } else if lacks_range(def) {
        Some(Why::CEnumRange)
    } else {
        None
    }
}

/// Whether a transparent struct has two fields or more that aren't of size 0 and alignment 1.
fn two_sized(kind: Kind, repr: Repr, parts: &[List<Facts>]) -> bool
    ensures { result ≡ two_sized_in kind repr parts.now }
{
    match kind {
        Kind::Struct => repr.transparent && has_two_sized(only(parts)),
        _ => false,
    }
}

/// The first of the faults of a definition that are asked where its fields have a layout.
pub fn layout_fault(
    kind: Kind,
    repr: Repr,
    parts: &[List<Facts>],
    aligned: bool,
    weight: u32,
) -> Option<Why>
    ensures { result ≡ layout_fault_in kind repr parts.now aligned weight }
{
    if two_sized(kind, repr, parts) {
        Some(Why::TransparentFields)
    } else if repr.packed.is_some() && aligned {
        Some(Why::PackedHoldsAlign)
    } else {
        weight_fault(weight)
    }
}
