//! The trees of fields, and the ways of unions and enums.
ghost use Rattle.std.specs.Prelude.{◌≡◌, ◌≤◌, ◌++◌, IfOk};
ghost use Rattle.std.specs.List.{AllByRecursion};
ghost use Rattle.tm_base.specs.declared.definition.Kind.TheVariants.{Enum};
ghost use Rattle.tm_base.specs.declared.ground.Ground.{Named};
ghost use Rattle.tm_base.specs.Expanded.{elements, variants_of};
ghost use Rattle.tm_base.specs.Layout.{field_layouts};
ghost use Rattle.tm_base.specs.Places.{fields_place};
ghost use Rattle.tm_base.specs.Tables.{expanded_in};
ghost use Rattle.tm_base.specs.Worlds.{tables_of};
ghost use Rattle.tm_layout.specs.Made.{EachIs};
ghost use Rattle.tm_layout.specs.LaidOut.{IsLaidOut, places_at};
ghost use Rattle.tm_tree.specs.LaidOut.{AreFieldsWithin, IsSizedDefinition};
ghost use Rattle.tm_tree.specs.Parts.{bare_parts, field_parts, union_ways, variant_ways};

use crate::builder::Builder;
use crate::rows::Row;
use tm_base::{Def, Ground, List, Memory, NamedId};
use tm_niche::Members;

impl Builder<'_> {
    /// The trees of fields that nothing stands between.
    #[cycle(building)]
    pub fn bare_parts(&self, types: &[Ground]) -> Result<Members, Memory>
        requires { EachIs (IsLaidOut (tables_of self.now.world.now)) types.now }
        ensures { let part = expanded_in (tables_of self.now.world.now) in
            IfOk result (λ parts. parts ≡ bare_parts (elements part types.now)) }
    {
        let mut parts = Members::new(self.alloc);
        for g in types {
            parts.append(self.parts(g)?)?;
        }
        Ok(parts)
    }

    /// The trees of a variant's fields behind those of a row, up to the end of a type of so many bytes, with
    /// the padding before each field and behind the last.
    #[cycle(building)]
    pub fn field_parts(
        &self,
        front: Row,
        id: NamedId,
        variant: u32,
        size: u32,
        types: &[Ground],
    ) -> Result<Members, Memory>
        requires { AreFieldsWithin
            (tables_of self.now.world.now) id variant front.end size types.now }
        ensures { let part = expanded_in (tables_of self.now.world.now) in
            let places = places_at (part (Named id)) variant in
            IfOk result (λ parts. parts
            ≡ front.parts ++ field_parts size front.end places (elements part types.now)) }
    {
        let mut row = front;
        for (field, g) in types.iter().enumerate() {
            let place = self.layouts.place(id, variant, field as u32);
            row.pad_to(self.alloc, place)?;
            row.add(self.parts(g)?, self.size(g))?;
        }
        row.pad_to(self.alloc, size)?;
        Ok(row.parts)
    }

    /// The ways of a union of so many bytes: each of its fields with the padding behind it.
    #[cycle(building)]
    pub fn union_ways(&self, size: u32, types: &[Ground]) -> Result<Members, Memory>
        requires laid_out { EachIs (IsLaidOut (tables_of self.now.world.now)) types.now }
        requires inside { let part = expanded_in (tables_of self.now.world.now) in
            AllByRecursion (λ l. l.size ≤ size) (field_layouts (elements part types.now)) }
        ensures { let part = expanded_in (tables_of self.now.world.now) in
            IfOk result (λ ways. ways ≡ union_ways size (elements part types.now)) }
    {
        let mut ways = Members::new(self.alloc);
        for g in types {
            let mut way = Row::new(self.alloc);
            way.add(self.parts(g)?, self.size(g))?;
            way.pad_to(self.alloc, size)?;
            ways.push(way.parts.in_turn(self.alloc)?)?;
        }
        Ok(ways)
    }

    /// The ways of an enum of so many bytes: the tag of each of its variants, with the fields behind it.
    #[cycle(building)]
    pub fn variant_ways(
        &self,
        id: NamedId,
        size: u32,
        def: &Def,
        types: &[List<Ground>],
    ) -> Result<Members, Memory>
        requires is { IsSizedDefinition (tables_of self.now.world.now) id size def.now types.now }
        requires kind { def.now.kind ≡ Enum }
        ensures { let profile = self.now.world.now.profile in
            let part = expanded_in (tables_of self.now.world.now) in
            let variants = variants_of part def.now.variants types.now in
            let begin = fields_place profile def.now.repr variants in
            IfOk result (λ ways. ways ≡ variant_ways profile def.now.repr begin size variants) }
    {
        let mut ways = Members::new(self.alloc);
        for (number, variant) in def.variants.as_slice().iter().enumerate() {
            let Some(fields) = types.get(number) else {
                unreachable!();
            };
            let tag = self.tag(def.repr.tag, variant.value)?;
            let way = self.field_parts(tag, id, number as u32, size, fields.as_slice())?;
            ways.push(way.in_turn(self.alloc)?)?;
        }
        Ok(ways)
    }
}
