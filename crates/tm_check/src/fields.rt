//! The fields of structs and variants in their places, and those of unions.
ghost use Rattle.std.specs.Prelude.{◌≡◌};
ghost use Rattle.tm_base.specs.declared.definition.Kind.TheVariants.{Enum};
ghost use Rattle.tm_base.specs.declared.ground.Ground.{Named};
ghost use Rattle.tm_base.specs.Expanded.{elements, variants_of};
ghost use Rattle.tm_base.specs.Places.{fields_place};
ghost use Rattle.tm_base.specs.Tables.{expanded_in};
ghost use Rattle.tm_base.specs.Worlds.{tables_of};
ghost use Rattle.tm_check.specs.Begins.{fields_begin, some_field_begins, some_variant_begins};
ghost use Rattle.tm_layout.specs.LaidOut.{AreFieldsOf, IsDefinition, IsLaidOut, places_at};
ghost use Rattle.tm_check.specs.Runs.{word_of};
ghost use Rattle.tm_layout.specs.Made.{EachIs};

use crate::matcher::Matcher;
use crate::number::tag;
use crate::run::Run;
use tm_base::{Def, Ground, List, NamedId, RefTest};

impl<M: RefTest> Matcher<'_, M> {
    /// Whether cells begin the fields of a variant, from a place on up to the end of the type.
    #[cycle(matching)]
    pub fn fields(
        &self,
        id: NamedId,
        variant: u32,
        from: u32,
        types: &[Ground],
        run: Run<'_>,
    ) -> bool
        requires { AreFieldsOf (tables_of self.now.world.now) id variant types.now }
        ensures { let part = expanded_in (tables_of self.now.world.now) in
            let places = places_at (part (Named id)) variant in
            result ≡ fields_begin (M.test self.now.refs.now) self.now.keep_private
            from places (elements part types.now) (word_of run.entry) }
    {
        let mut end = u64::from(from);
        let mut rest = run;
        for (field, g) in types.iter().enumerate() {
            let place = u64::from(self.layouts.place(id, variant, field as u32));
            let gap = place.saturating_sub(end) as usize;
            let size = self.size(g);
            let behind = rest.behind(gap);
            if !rest.front(gap).is_free() || !self.begins(g, behind.front(size as usize)) {
                return false;
            }
            end = place + u64::from(size);
            rest = behind.behind(size as usize);
        }
        rest.is_free()
    }

    /// Whether cells begin one of the fields of a union, with free bytes behind it.
    #[cycle(matching)]
    pub fn some_field(&self, types: &[Ground], run: Run<'_>) -> bool
        requires { EachIs (IsLaidOut (tables_of self.now.world.now)) types.now }
        ensures { let part = expanded_in (tables_of self.now.world.now) in
            result ≡ some_field_begins (M.test self.now.refs.now) self.now.keep_private
            (elements part types.now) (word_of run.entry) }
    {
        for g in types {
            let size = self.size(g) as usize;
            if self.begins(g, run.front(size)) && run.behind(size).is_free() {
                return true;
            }
        }
        false
    }

    /// Whether cells begin one of the variants of an enum: its tag, and its fields behind it.
    #[cycle(matching)]
    pub fn some_variant(&self, id: NamedId, def: &Def, types: &[List<Ground>], run: Run<'_>) -> bool
        requires is { IsDefinition (tables_of self.now.world.now) id def.now types.now }
        requires kind { def.now.kind ≡ Enum }
        ensures { let profile = self.now.world.now.profile in
            let part = expanded_in (tables_of self.now.world.now) in
            let variants = variants_of part def.now.variants types.now in
            result ≡ some_variant_begins (M.test self.now.refs.now) self.now.keep_private
            profile def.now.repr (fields_place profile def.now.repr variants)
            variants (word_of run.entry) }
    {
        let size = self.tag_size(def.repr.tag);
        let behind = run.behind(size as usize);
        for (number, variant) in def.variants.as_slice().iter().enumerate() {
            let Some(fields) = types.get(number) else {
                unreachable!();
            };
            let front = run.front(size as usize);
            if tag(self.world.profile, size, variant.value, front)
                && self.fields(id, number as u32, size, fields.as_slice(), behind)
            {
                return true;
            }
        }
        false
    }
}
