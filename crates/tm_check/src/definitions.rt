//! Structs, unions and enums.
ghost use Rattle.std.specs.Prelude.{◌≡◌, ◌||◌};
ghost use Rattle.std.specs.List.{list_all};
ghost use Rattle.tm_base.specs.declared.ground.Ground.{Named};
ghost use Rattle.tm_base.specs.Layout.{only, tag_layout};
ghost use Rattle.tm_base.specs.Tables.{expanded_in};
ghost use Rattle.tm_base.specs.Worlds.{tables_of};
ghost use Rattle.tm_check.specs.Begins.{begins};
ghost use Rattle.tm_layout.specs.LaidOut.{IsDefinition, IsLaidOut};
ghost use Rattle.tm_check.specs.Runs.{word_of};

use crate::matcher::Matcher;
use crate::run::Run;
use tm_base::{Def, Field, Ground, Kind, List, NamedId, Primitive, RefTest};

/// Whether each of some fields is public.
fn are_public(fields: &[Field]) -> bool
    ensures { result ≡ list_all (λ f. f.public) fields.now }
{
    fields.iter().all(|field| field.public)
}

/// Whether each field of a definition is public.
fn is_public(def: &Def) -> bool
    ensures { result ≡ list_all (λ v. list_all (λ f. f.public) v.fields) def.now.variants }
{
    let variants = def.variants.as_slice();
    variants
        .iter()
        .all(|variant| are_public(variant.fields.as_slice()))
}

/// The types of the fields of a struct or a union, which is one variant.
fn only(types: &[List<Ground>]) -> &[Ground]
    ensures { result.now ≡ only types.now }
{
    match types {
        [fields, ..] => fields.as_slice(),
        [] => &[],
    }
}

impl<M: RefTest> Matcher<'_, M> {
    /// The size of an enum's tag, in bytes.
    pub fn tag_size(&self, tag: Option<Primitive>) -> u32
        ensures { result ≡ (tag_layout self.now.world.now.profile tag).size }
    {
        self.size(&Ground::Prim(tag.unwrap_or(Primitive::I32)))
    }

    /// Whether a struct or a union may be made: private types keep their values, or each field is public.
    fn may_be_made(&self, def: &Def) -> bool
        ensures { let public = list_all (λ v. list_all (λ f. f.public) v.fields) in
            result ≡ (self.now.keep_private || public def.now.variants) }
    {
        self.keep_private || is_public(def)
    }

    /// Whether cells begin a value of the named type.
    #[cycle(matching)]
    pub fn named(&self, id: NamedId, run: Run<'_>) -> bool
        requires { IsLaidOut (tables_of self.now.world.now) (Named id) }
        ensures { let part = expanded_in (tables_of self.now.world.now) in
            result ≡ begins (M.test self.now.refs.now) self.now.keep_private
            (part (Named id)) (word_of run.entry) }
    {
        let Some(row) = self.world.named.get(id.0 as usize) else {
            unreachable!();
        };
        let Some(def) = self.world.defs.get(row.def.0 as usize) else {
            unreachable!();
        };
        self.defined(id, def, row.types.as_slice(), run)
    }

    /// Whether cells begin a value of the named type, by its definition and the types of its fields.
    #[cycle(matching)]
    fn defined(&self, id: NamedId, def: &Def, types: &[List<Ground>], run: Run<'_>) -> bool
        requires { IsDefinition (tables_of self.now.world.now) id def.now types.now }
        ensures { let part = expanded_in (tables_of self.now.world.now) in
            result ≡ begins (M.test self.now.refs.now) self.now.keep_private
            (part (Named id)) (word_of run.entry) }
    {
        match def.kind {
            Kind::Struct => self.may_be_made(def) && self.fields(id, 0, 0, only(types), run),
            Kind::Union => self.may_be_made(def) && self.some_field(only(types), run),
            Kind::Enum => self.some_variant(id, def, types, run),
        }
    }
}
