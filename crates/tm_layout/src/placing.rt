ghost use Rattle.std.specs.Prelude.{◌≡◌, ◌+◌, IfOk, IsTrue, None, map};
ghost use Rattle.tm_base.specs.Layout.{places};
ghost use Rattle.tm_base.specs.Places.{at_front, places_of};
ghost use Rattle.tm_base.specs.Whole.{is_def_in_form};
ghost use Rattle.tm_layout.specs.Capped.{capped};
ghost use Rattle.tm_layout.specs.Known.{OfDefined};
ghost use Rattle.tm_layout.specs.Placed.{variant_places_in};
ghost use Rattle.tm_layout.specs.Reckoned.{layouts_in, variant_layouts_in};
ghost use Rattle.tm_layout.specs.Refusals.{refusal_of};

use crate::enums::{fields_begin, tag_layout};
use crate::facts::Facts;
use crate::fields::{layout_in, place_at};
use std::alloc::Global;
use tm_base::{Def, Kind, List, Memory, Profile, Repr};

/// Where some fields stand, one after another from a place on, each counted from `begin`.
fn in_order(
    alloc: Global,
    packed: Option<u32>,
    begin: u32,
    at: u32,
    fields: &[Facts],
) -> Result<List<u32>, Memory>
    ensures { IfOk result
        (λ found. found ≡ map (λ place. capped (begin + place))
        (places packed at (layouts_in fields.now))) }
{
    let mut found = List::new(alloc);
    let mut end = at;
    for field in fields {
        let layout = layout_in(field);
        let place = place_at(packed, end, layout);
        found.add(begin.saturating_add(place))?;
        end = place.saturating_add(layout.size);
    }
    Ok(found)
}

/// Where some fields stand that are all at the front.
fn at_front(alloc: Global, fields: &[Facts]) -> Result<List<u32>, Memory>
    ensures { IfOk result (λ found. found ≡ at_front (layouts_in fields.now)) }
{
    let mut found = List::new(alloc);
    for _ in fields {
        found.add(0)?;
    }
    Ok(found)
}

/// Where the fields of a variant stand.
fn variant_places(
    alloc: Global,
    profile: Profile,
    kind: Kind,
    repr: Repr,
    begin: u32,
    fields: &[Facts],
) -> Result<List<u32>, Memory>
    ensures { IfOk result
        (λ found. found ≡ map capped
        (variant_places_in profile kind repr begin (layouts_in fields.now))) }
{
    match kind {
        Kind::Struct if repr.transparent => at_front(alloc, fields),
        Kind::Struct => in_order(alloc, repr.packed, 0, 0, fields),
        Kind::Union => at_front(alloc, fields),
        Kind::Enum if repr.c => in_order(alloc, None, begin, 0, fields),
        Kind::Enum => in_order(alloc, None, 0, tag_layout(profile, repr.tag).size, fields),
    }
}

/// Where the fields of a definition stand, for each variant, of which a layout is known.
fn all_places(
    alloc: Global,
    profile: Profile,
    kind: Kind,
    repr: Repr,
    begin: u32,
    parts: &[List<Facts>],
) -> Result<List<List<u32>>, Memory>
    ensures { IfOk result
        (λ found. found ≡ map (λ ls. map capped (variant_places_in profile kind repr begin ls))
        (variant_layouts_in parts.now)) }
{
    let mut found = List::new(alloc);
    for fields in parts {
        let places = variant_places(alloc, profile, kind, repr, begin, fields.as_slice())?;
        found.add(places)?;
    }
    Ok(found)
}

/// Where the fields of a named type that has a layout stand, for each variant, in bytes from the type's
/// first. `Memory`: there wasn't enough memory.
pub fn places(
    alloc: Global,
    profile: Profile,
    def: &Def,
    parts: &[List<Facts>],
) -> Result<List<List<u32>>, Memory>
    requires { IsTrue (is_def_in_form profile def.now) }
    ensures { IfOk result
        (λ found. OfDefined profile def.now parts.now
        (λ t. refusal_of t ≡ None → found ≡ places_of t)) }
{
    let begin = fields_begin(profile, def.kind, def.repr, parts);
    all_places(alloc, profile, def.kind, def.repr, begin, parts)
}
