//! Which types a type holds by value, and where its fields stand.

ghost use Rattle.tm_laws.specs.PartLaws.{ExpansionKeepsParts};
ghost use Rattle.tm_laws.specs.PlacesApart.{PlacesStandApart, PlacesOfJudgedTypesStandApart};
ghost use Rattle.tm_laws.specs.SliceLaws.{StructsHoldTheirFields, EnumsHoldTheirFields};

use tm_base::World;

/// A type over the world holds the same parts by value as it is named and as it is written out, in one order.
pub fn expansion_keeps_parts(world: &World)
    ensures { ExpansionKeepsParts world.now }
{}

/// Where no type that is held by value is at fault, the fields of each stand apart, behind the tag and
/// inside the type.
pub fn places_stand_apart()
    ensures { PlacesStandApart }
{}

/// The fields of a judged type over a world stand apart, and so do those of each type that it holds by
/// value.
pub fn places_of_judged_types_stand_apart(world: &World)
    ensures { PlacesOfJudgedTypesStandApart world.now }
{}

/// The value of a struct that isn't transparent holds a value of each field at the field's place, and what lies
/// in no field is free; and nothing else is asked of it.
pub fn structs_hold_their_fields()
    ensures { StructsHoldTheirFields }
{}

/// The value of an enum holds the tag of one of its variants, and a value of each of that variant's fields at the
/// field's place; what lies in neither is free, and nothing else is asked of it.
pub fn enums_hold_their_fields()
    ensures { EnumsHoldTheirFields }
{}
