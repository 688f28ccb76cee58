ghost use Rattle.std.specs.Prelude.{◌≡◌, ◌++◌, IfOk, OnOk, flat_map};
ghost use Rattle.tm_names.specs.Closures.{WithInfinite, infinite_faults};
ghost use Rattle.tm_names.specs.FileFaults.{IsFirst};
ghost use Rattle.tm_names.specs.Held.{bit_at, row_at};
ghost use Rattle.tm_names.specs.Found.{decl_faults, scope_faults};
ghost use Rattle.tm_names.specs.Least.{earliest};
ghost use Rattle.tm_names.specs.Scopes.{ask_mentions, bound_mentions, outer_scope};
ghost use Rattle.tm_names.specs.Source.{names_in};

mod closure;
mod holding;
pub mod least;
mod listing;
mod mentioning;
mod mentions;
mod noting;
mod own;
mod ranges;

use crate::adding::add;
use crate::faults::closure::{closure, is_cyclic};
use crate::faults::least::{Faults, NameFault};
use crate::faults::listing::decl_names;
use crate::faults::mentioning::{add_mentions, mentions};
use crate::faults::mentions::Mention;
use crate::file::File;
use crate::forms::{items, tag};
use tm_base::{List, Memory, NameWhy};
use tm_parse::{Decl, DeclAsk, DeclBound, Parsed};

/// Puts what items `outlives` mention behind the rest.
fn add_bounds(found: &mut List<Mention>, bounds: &[DeclBound]) -> Result<(), Memory>
    ensures { OnOk result (found.new ≡ found.old ++ flat_map bound_mentions bounds.now) }
{
    for bound in bounds {
        add(found, Mention::Life(bound.longer))?;
        add(found, Mention::Life(bound.shorter))?;
    }
    Ok(())
}

/// Puts what questions mention behind the rest.
fn add_asks(found: &mut List<Mention>, asks: &[DeclAsk]) -> Result<(), Memory>
    ensures { OnOk result (found.new ≡ found.old ++ flat_map ask_mentions asks.now) }
{
    for ask in asks {
        add_mentions(found, &ask.src)?;
        add_mentions(found, &ask.dst)?;
    }
    Ok(())
}

impl Faults<'_, '_> {
    /// Takes note of the faults of a definition, but for that it holds itself.
    fn note_decl(&mut self, decl: &Decl) -> Result<(), Memory>
        ensures first { OnOk result (self.new.first ≡ earliest self.old.first
            (decl_faults self.old.file.source.profile (names_in self.old.file.source)
            self.old.file.definitions.now.decls.now decl.now)) }
        ensures file { self.new.file ≡ self.old.file }
    {
        let items = items(self.file.alloc, decl)?;
        let mentions = mentions(self.file.alloc, decl)?;
        let params = decl.params.as_slice();
        self.note_lists(decl)?;
        self.note_reserved(params);
        self.note_mentions(params, decl.type_params.as_slice(), mentions.as_slice());
        self.note_values(tag(items.as_slice()), decl.variants.as_slice())?;
        self.note_repr(decl, items.as_slice());
        Ok(())
    }

    /// Takes note of the faults of definitions, but for that some hold themselves.
    fn note_decls(&mut self) -> Result<(), Memory>
        ensures first { OnOk result (self.new.first ≡ earliest self.old.first (flat_map
            (decl_faults self.old.file.source.profile (names_in self.old.file.source)
            self.old.file.definitions.now.decls.now) self.old.file.definitions.now.decls.now)) }
        ensures file { self.new.file ≡ self.old.file }
    {
        let decls = self.file.definitions.decls;
        for decl in decls {
            self.note_decl(decl)?;
        }
        Ok(())
    }

    /// Takes note of the faults of what stands outside of definitions.
    fn note_outer(&mut self, parsed: &Parsed) -> Result<(), Memory>
        ensures first { OnOk result (self.new.first ≡ earliest self.old.first (scope_faults
            (names_in self.old.file.source) self.old.file.definitions.now.decls.now
            (outer_scope parsed.now))) }
        ensures file { self.new.file ≡ self.old.file }
    {
        let mut mentions = List::new(self.file.alloc);
        add_bounds(&mut mentions, parsed.bounds.as_slice())?;
        add_asks(&mut mentions, parsed.questions.as_slice())?;
        self.note_mentions(parsed.lifetimes.as_slice(), &[], mentions.as_slice());
        Ok(())
    }

    /// Takes note of the definitions from which a way leads back.
    fn note_cyclic(&mut self, decls: &[Decl], closed: &[List<bool>])
        ensures first { self.new.first ≡ earliest self.old.first
            (infinite_faults (λ i. bit_at (row_at closed.now i) i) decls.now) }
        ensures file { self.new.file ≡ self.old.file }
    {
        for (number, decl) in decls.iter().enumerate() {
            let cyclic = is_cyclic(closed, number);
            self.note(cyclic, NameWhy::Infinite, decl.name);
        }
    }

    /// Takes note of the definitions that hold themselves.
    fn note_infinite(&mut self) -> Result<(), Memory>
        ensures first { OnOk result (WithInfinite (names_in self.old.file.source)
            self.old.file.definitions.now.decls.now self.old.first self.new.first) }
        ensures file { self.new.file ≡ self.old.file }
    {
        let file = self.file;
        let own = file.own_rows()?;
        let rows = file.rows(own.as_slice())?;
        let closed = closure(file.alloc, rows)?;
        self.note_cyclic(file.definitions.decls, closed.as_slice());
        Ok(())
    }
}

/// The first name fault of a file with these definitions.
pub fn first_fault(file: &File, parsed: &Parsed) -> Result<Option<NameFault>, Memory>
    requires { file.now.definitions.now.decls.now ≡ parsed.now.decls }
    ensures { IfOk result (IsFirst file.now.source.profile (names_in file.now.source) parsed.now) }
{
    let lifetimes = parsed.lifetimes.as_slice();
    let names = decl_names(file.alloc, file.definitions.decls)?;
    let mut faults = Faults {
        file: *file,
        first: None,
    };
    faults.note_repeats(names.as_slice());
    faults.note_repeats(lifetimes);
    faults.note_reserved(lifetimes);
    faults.note_decls()?;
    faults.note_outer(parsed)?;
    faults.note_infinite()?;
    Ok(faults.first)
}
