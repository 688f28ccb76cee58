ghost use Rattle.std.specs.Prelude.{◌≡◌, IsTrue};
ghost use Rattle.tm_base.specs.Layout.{named_layout};
ghost use Rattle.tm_base.specs.Whole.{is_def_in_form};
ghost use Rattle.tm_layout.specs.Defined.{nullable_in};
ghost use Rattle.tm_layout.specs.Known.{IsFactsOf, OfDefined};
ghost use Rattle.tm_layout.specs.Reckoned.{IsCapped, variant_layouts_in};

use crate::enums::enum_layout;
use crate::facts::Facts;
use crate::faults::{first_fault, layout_fault, own_fault};
use crate::fields::{only, struct_layout};
use crate::layouts::Layout;
use crate::parts::together;
use crate::transparent::transparent_layout;
use crate::unions::union_layout;
use crate::weights::weight_in;
use tm_base::{Def, Kind, List, Profile, Repr};

/// The layout of a definition, by what is known of the fields of each variant.
fn layout(profile: Profile, kind: Kind, repr: Repr, parts: &[List<Facts>]) -> Layout
    ensures { IsCapped (named_layout profile kind repr (variant_layouts_in parts.now)) result }
{
    match kind {
        Kind::Struct if repr.transparent => transparent_layout(only(parts)),
        Kind::Struct => struct_layout(repr.packed, repr.align, only(parts)),
        Kind::Union => union_layout(repr.packed, repr.align, only(parts)),
        Kind::Enum => enum_layout(profile, repr, parts),
    }
}

/// Whether a definition with or without a nullable field is nullable.
fn is_nullable(kind: Kind, repr: Repr, field: bool) -> bool
    ensures { result ≡ nullable_in kind repr field }
{
    match kind {
        Kind::Struct => repr.transparent && field,
        _ => false,
    }
}

/// What is known of a named type, by its definition and what is known of the fields of each variant.
pub fn defined(profile: Profile, def: &Def, parts: &[List<Facts>]) -> Facts
    requires { IsTrue (is_def_in_form profile def.now) }
    ensures { OfDefined profile def.now parts.now (λ t. IsFactsOf t result) }
{
    let fields = together(parts);
    let layout = layout(profile, def.kind, def.repr, parts);
    let weight = weight_in(profile, def.kind, def.repr, layout.size, parts);
    let asked = layout_fault(def.kind, def.repr, parts, fields.aligned, weight);
    let fault = first_fault(own_fault(def), fields.refusal, asked);
    Facts {
        fault,
        refusal: fault.or(fields.refusal),
        nullable: is_nullable(def.kind, def.repr, fields.nullable),
        aligned: def.repr.align.is_some() | fields.aligned,
        interior: fields.interior,
        size: layout.size,
        align: layout.align,
        weight,
    }
}
