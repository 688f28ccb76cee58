ghost use Rattle.std.specs.Prelude.{◌≡◌, false, refl};
ghost use Rattle.tm_parse.specs.Combinators.{starts};
ghost use Rattle.tm_parse.specs.Parts.{Part};
ghost use Rattle.tm_parse.specs.Reads.{Reads};
ghost use Rattle.tm_parse.specs.Shapes.{
  any,
  listed as listed_rule,
  listed1 as listed1_rule,
  listed_behind as listed_behind_rule,
  many as many_rule,
  so_far_behind,
};

use crate::class::Class;
use crate::reader::Reader;
use crate::stop::Stop;
use crate::terminal::Terminal;
use tm_base::List;

/// A rule of the grammar that lists repeat.
pub trait Rule {
    type Value: Drop;

    ghost rule: { Self → Part Self.Value };

    /// Whether a terminal comes next that begins it.
    fn begins(&self, reader: &Reader) -> bool
        ensures { result ≡ starts (rule self.now).first reader.now.rest.now };

    /// Reads it.
    fn read(&self, reader: &mut Reader) -> Result<Self::Value, Stop>
        ensures { Reads (rule self.now) reader.old reader.new result };

    ghost begun: { (self : Self) → (rule self).empty ≡ false };
}

/// One terminal of any of these classes.
pub struct AnyOf<'c>(pub &'c [Class]);

impl<'c> Rule for AnyOf<'c> {
    type Value = Terminal;

    ghost rule = { λ self. any self.0.now };

    ghost begun = { λ self. refl };

    fn begins(&self, reader: &Reader) -> bool {
        reader.is_any_next(self.0)
    }

    fn read(&self, reader: &mut Reader) -> Result<Terminal, Stop> {
        reader.take_any(self.0)
    }
}

impl<'a> Reader<'a> {
    /// None, one or several, with commas between them, and perhaps one behind the last, put behind what
    /// was found before; and whether another one may follow.
    pub fn so_far_behind<R: Rule>(
        &mut self,
        found: List<R::Value>,
        rule: &R,
    ) -> Result<(List<R::Value>, bool), Stop>
        ensures { Reads (so_far_behind found (R.rule rule.now)) self.old self.new result }
    {
        let mut found = found;
        for _ in 0..self.rest.len() {
            if !rule.begins(self) {
                return Ok((found, true));
            }
            found.add(rule.read(self)?)?;
            if !self.accept(Class::Comma)? {
                return Ok((found, false));
            }
        }
        Ok((found, true))
    }

    /// None, one or several, with commas in the same way, put behind what was found before.
    fn listed_behind<R: Rule>(
        &mut self,
        found: List<R::Value>,
        rule: &R,
    ) -> Result<List<R::Value>, Stop>
        ensures { Reads (listed_behind_rule found (R.rule rule.now)) self.old self.new result }
    {
        let (found, _) = self.so_far_behind(found, rule)?;
        Ok(found)
    }

    /// None, one or several, with commas between them, and perhaps one behind the last.
    pub fn listed<R: Rule>(&mut self, rule: &R) -> Result<List<R::Value>, Stop>
        ensures { Reads (listed_rule (R.rule rule.now)) self.old self.new result }
    {
        self.listed_behind(List::new(self.alloc), rule)
    }

    /// One or several, with commas between them, and perhaps one behind the last.
    pub fn listed1<R: Rule>(&mut self, rule: &R) -> Result<List<R::Value>, Stop>
        ensures { Reads (listed1_rule (R.rule rule.now)) self.old self.new result }
    {
        let mut found = List::new(self.alloc);
        found.add(rule.read(self)?)?;
        if !self.is_next(Class::Comma) {
            return Ok(found);
        }
        self.take(Class::Comma)?;
        self.listed_behind(found, rule)
    }

    /// None, one or several.
    pub fn many<R: Rule>(&mut self, rule: &R) -> Result<List<R::Value>, Stop>
        ensures { Reads (many_rule (R.rule rule.now)) self.old self.new result }
    {
        let mut found = List::new(self.alloc);
        for _ in 0..self.rest.len() {
            if !rule.begins(self) {
                return Ok(found);
            }
            found.add(rule.read(self)?)?;
        }
        Ok(found)
    }
}
