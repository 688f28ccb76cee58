ghost use Rattle.std.specs.Prelude.{◌≡◌, IfOk, refl};
ghost use Rattle.tm_parse.specs.Definitions.{
  parameter as parameter_rule,
  parameter_list as parameter_list_rule,
  parameters as parameters_rule,
  type_parameter as type_parameter_rule,
};
ghost use Rattle.tm_parse.specs.Reads.{Reads};
ghost use Rattle.tm_parse.specs.Types.{places as places_of};

use crate::class::Class;
use crate::mark::Mark;
use crate::reader::Reader;
use crate::reader::rule::Rule;
use crate::stop::Stop;
use crate::terminal::Terminal;
use std::alloc::Global;
use tm_base::{List, Memory};

/// The places of these.
pub fn places(alloc: Global, terminals: &[Terminal]) -> Result<List<u32>, Memory>
    ensures { IfOk result (λ found. found ≡ places_of terminals.now) }
{
    let mut found = List::new(alloc);
    for terminal in terminals {
        found.add(terminal.place)?;
    }
    Ok(found)
}

/// A lifetime that is a parameter.
struct Parameter;

impl Rule for Parameter {
    type Value = Terminal;

    ghost rule = { λ _. parameter_rule };

    ghost begun = { λ _. refl };

    fn begins(&self, reader: &Reader) -> bool {
        reader.is_next(Class::Lifetime)
    }

    fn read(&self, reader: &mut Reader) -> Result<Terminal, Stop> {
        let begins = self.begins(reader);
        reader.begin(begins, Mark::Parameter)?;
        reader.take(Class::Lifetime)
    }
}

/// A name that is a parameter, and stands for a type.
struct TypeParameter;

impl Rule for TypeParameter {
    type Value = Terminal;

    ghost rule = { λ _. type_parameter_rule };

    ghost begun = { λ _. refl };

    fn begins(&self, reader: &Reader) -> bool {
        reader.is_definition_name_next()
    }

    fn read(&self, reader: &mut Reader) -> Result<Terminal, Stop> {
        let begins = self.begins(reader);
        reader.begin(begins, Mark::TypeParameter)?;
        reader.definition_name()
    }
}

impl<'a> Reader<'a> {
    /// Lifetimes and then names of types, one or several in all.
    fn parameter_list(&mut self) -> Result<(List<Terminal>, List<Terminal>), Stop>
        ensures { Reads parameter_list_rule self.old self.new result }
    {
        if !self.is_next(Class::Lifetime) {
            return Ok((List::new(self.alloc), self.listed1(&TypeParameter)?));
        }
        let none = List::new(self.alloc);
        let (lifetimes, is_open) = self.so_far_behind(none, &Parameter)?;
        if !is_open || !self.is_definition_name_next() {
            return Ok((lifetimes, List::new(self.alloc)));
        }
        Ok((lifetimes, self.listed1(&TypeParameter)?))
    }

    /// The parameters of a definition, which may be left out: the places of the lifetimes, and those of
    /// the names of types.
    pub fn parameters(&mut self) -> Result<(List<u32>, List<u32>), Stop>
        ensures { Reads parameters_rule self.old self.new result }
    {
        if !self.is_next(Class::Less) {
            return Ok((List::new(self.alloc), List::new(self.alloc)));
        }
        self.take(Class::Less)?;
        let (lifetimes, types) = self.parameter_list()?;
        self.take(Class::Greater)?;
        let lifetimes = places(self.alloc, lifetimes.as_slice())?;
        Ok((lifetimes, places(self.alloc, types.as_slice())?))
    }
}
