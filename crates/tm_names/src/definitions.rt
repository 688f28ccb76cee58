ghost use Rattle.std.specs.Prelude.{◌≡◌, ℕ, ◌<◌, ◌≤◌, List, None, Some, IfOk, IfSome, OnOk, if◌then◌else◌, length};
ghost use Rattle.std.specs.HashMap.{get_by};
ghost use Rattle.std.specs.Option.{option_or};
ghost use Rattle.std.specs.Str.{bytes_eq};
ghost use Rattle.tm_names.specs.Indexing.{IsIndexed};
ghost use Rattle.tm_names.specs.Meanings.{IsAtPlace, first_named, meaning_of};
ghost use Rattle.tm_names.specs.Source.{names_in};

use crate::file::File;
use crate::indexed::Definitions;
use crate::meaning::Meaning;
use crate::source::Source;
use indexmap::IndexMap;
use std::alloc::Global;
use tm_base::Memory;
use tm_parse::Decl;

/// Notes a definition's number under its name, where no earlier one has the name.
fn note<'a>(
    firsts: &mut IndexMap<&'a [u8], usize>,
    name: &'a [u8],
    number: usize,
) -> Result<(), Memory>
    ensures { OnOk result ((bytes : List ℕ) → get_by (λ key. bytes_eq bytes key.now) firsts.new
        ≡ option_or (get_by (λ key. bytes_eq bytes key.now) firsts.old)
        (if bytes_eq name.now bytes then Some number else None)) }
{
    if firsts.contains_key(name) {
        return Ok(());
    }
    firsts.insert(name, number)?;
    Ok(())
}

impl<'a> Definitions<'a> {
    /// Definitions with the first of each name.
    pub fn indexed(
        alloc: Global,
        source: &Source<'a>,
        decls: &'a [Decl],
    ) -> Result<Definitions<'a>, Memory>
        requires few { length decls.now ≤ 256 }
        ensures decls { IfOk result (λ definitions. definitions.decls.now ≡ decls.now) }
        ensures indexed { IfOk result (IsIndexed (names_in source.now)) }
    {
        let mut firsts = IndexMap::new(alloc);
        for (number, decl) in decls.iter().enumerate() {
            note(&mut firsts, source.name(decl.name), number)?;
        }
        Ok(Definitions { decls, firsts })
    }
}

impl File<'_, '_> {
    /// The number of the first definition that has the name of the token at a place.
    pub fn first_named(&self, place: u32) -> Option<usize>
        ensures first { result
            ≡ first_named (names_in self.now.source) self.now.definitions.now.decls.now place }
        ensures within { IfSome result (λ number.
            number < length self.now.definitions.now.decls.now) }
    {
        self.definitions
            .firsts
            .get(self.source.name(place))
            .copied()
    }

    /// What the name of the token at a place means, where these type parameters are in sight.
    pub fn meaning(&self, types: &[u32], place: u32) -> Option<Meaning>
        ensures meant { result ≡ meaning_of (names_in self.now.source)
            self.now.definitions.now.decls.now types.now place }
        ensures within { IfSome result
            (IsAtPlace self.now.definitions.now.decls.now types.now) }
    {
        if let Some(number) = self.source.first_among(types, place) {
            return Some(Meaning::Parameter(number));
        }
        let number = self.first_named(place)?;
        Some(Meaning::Definition(number))
    }
}
