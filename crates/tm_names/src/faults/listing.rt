ghost use Rattle.std.specs.Prelude.{◌≡◌, ◌++◌, IfOk, OnOk, flat_map, map, option_to_list};
ghost use Rattle.tm_names.specs.Faults.{decl_lists, field_names, variant_names};
ghost use Rattle.tm_names.specs.Found.{repeats};
ghost use Rattle.tm_names.specs.Least.{earliest};
ghost use Rattle.tm_names.specs.Source.{names_in};

use crate::adding::add;
use crate::faults::least::Faults;
use std::alloc::Global;
use tm_base::{List, Memory};
use tm_parse::{Decl, DeclVariant};

/// Puts a name, if there is one, behind the others.
fn add_name(names: &mut List<u32>, name: Option<u32>) -> Result<(), Memory>
    ensures { OnOk result (names.new ≡ names.old ++ option_to_list name) }
{
    match name {
        None => Ok(()),
        Some(place) => add(names, place),
    }
}

/// The names of a variant's fields.
fn field_names(alloc: Global, variant: &DeclVariant) -> Result<List<u32>, Memory>
    ensures { IfOk result (λ names. names ≡ field_names variant.now) }
{
    let mut names = List::new(alloc);
    for field in variant.fields.as_slice() {
        add_name(&mut names, field.name)?;
    }
    Ok(names)
}

/// The names of a definition's variants.
fn variant_names(alloc: Global, decl: &Decl) -> Result<List<u32>, Memory>
    ensures { IfOk result (λ names. names ≡ variant_names decl.now) }
{
    let mut names = List::new(alloc);
    for variant in decl.variants.as_slice() {
        add_name(&mut names, variant.name)?;
    }
    Ok(names)
}

/// The names of definitions.
pub fn decl_names(alloc: Global, decls: &[Decl]) -> Result<List<u32>, Memory>
    ensures { IfOk result (λ names. names ≡ map (λ d. d.name) decls.now) }
{
    let mut names = List::new(alloc);
    for decl in decls {
        add(&mut names, decl.name)?;
    }
    Ok(names)
}

impl Faults<'_, '_> {
    /// Takes note of the fields whose names stand before in their variant.
    fn note_fields(&mut self, variants: &[DeclVariant]) -> Result<(), Memory>
        ensures first { OnOk result (self.new.first ≡ earliest self.old.first (flat_map
            (repeats (names_in self.old.file.source)) (map field_names variants.now))) }
        ensures file { self.new.file ≡ self.old.file }
    {
        for variant in variants {
            let names = field_names(self.file.alloc, variant)?;
            self.note_repeats(names.as_slice());
        }
        Ok(())
    }

    /// Takes note of the names that stand before in a list of a definition's.
    pub fn note_lists(&mut self, decl: &Decl) -> Result<(), Memory>
        ensures first { OnOk result (self.new.first ≡ earliest self.old.first
            (flat_map (repeats (names_in self.old.file.source)) (decl_lists decl.now))) }
        ensures file { self.new.file ≡ self.old.file }
    {
        let variants = variant_names(self.file.alloc, decl)?;
        self.note_repeats(decl.params.as_slice());
        self.note_repeats(decl.type_params.as_slice());
        self.note_repeats(variants.as_slice());
        self.note_fields(decl.variants.as_slice())
    }
}
