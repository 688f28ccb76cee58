ghost use Rattle.std.specs.Prelude.{◌≡◌, IfOk, map};
ghost use Rattle.tm_names.specs.Closures.{TellsOwn};
ghost use Rattle.tm_names.specs.Held.{definition_flags, no_flags, parameter_flags};
ghost use Rattle.tm_names.specs.Source.{names_in};

use crate::adding::add;
use crate::faults::closure::{have_news, joined_rows};
use crate::faults::holding::flags;
use crate::file::File;
use tm_base::{List, Memory};

impl File<'_, '_> {
    /// No flag for each parameter of each definition.
    fn no_flags(&self) -> Result<List<List<bool>>, Memory>
        ensures { IfOk result (λ rows. rows
            ≡ map no_flags self.now.definitions.now.decls.now) }
    {
        let mut rows = List::new(self.alloc);
        for decl in self.definitions.decls {
            let row = flags(self.alloc, &[], decl.type_params.len())?;
            add(&mut rows, row)?;
        }
        Ok(rows)
    }

    /// For each definition which of its parameters the types of its fields hold, as far as these flags
    /// tell.
    fn found_rows(&self, own: &[List<bool>]) -> Result<List<List<bool>>, Memory>
        ensures { IfOk result (λ rows. rows ≡ map (parameter_flags (names_in self.now.source)
            self.now.definitions.now.decls.now own.now) self.now.definitions.now.decls.now) }
    {
        let mut rows = List::new(self.alloc);
        for decl in self.definitions.decls {
            let row = self.parameter_flags(own, decl)?;
            add(&mut rows, row)?;
        }
        Ok(rows)
    }

    /// For each definition which of its own parameters it holds.
    ///
    /// What a named type holds rests on what its definition holds, so this is found in turns, until one
    /// finds nothing new.
    pub fn own_rows(&self) -> Result<List<List<bool>>, Memory>
        ensures { IfOk result (TellsOwn (names_in self.now.source)
            self.now.definitions.now.decls.now) }
    {
        let mut own = self.no_flags()?;
        'turns: loop {
            let found = self.found_rows(own.as_slice())?;
            if !have_news(own.as_slice(), found.as_slice()) {
                return Ok(own);
            }
            own = joined_rows(self.alloc, own.as_slice(), found.as_slice())?;
        }
    }

    /// For each two definitions whether the types of the first one's fields hold the second.
    pub fn rows(&self, own: &[List<bool>]) -> Result<Vec<List<bool>>, Memory>
        ensures { IfOk result (λ rows. rows.items ≡ map (definition_flags
            (names_in self.now.source) self.now.definitions.now.decls.now own.now)
            self.now.definitions.now.decls.now) }
    {
        let mut rows = Vec::new(self.alloc);
        for decl in self.definitions.decls {
            let row = self.definition_flags(own, decl)?;
            rows.push(row)?;
        }
        Ok(rows)
    }
}
