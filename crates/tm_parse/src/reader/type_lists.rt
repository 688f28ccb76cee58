ghost use Rattle.std.specs.Prelude.{◌≤◌};
ghost use Rattle.tm_parse.specs.Reads.{Reads};
ghost use Rattle.tm_parse.specs.Shapes.{listed1 as listed1_rule, listed_behind};
ghost use Rattle.tm_parse.specs.Types.{
  argument_list as argument_list_rule,
  behind_paren as behind_paren_rule,
  named_type,
  type_at,
};

use crate::class::Class;
use crate::parsed::Expr;
use crate::reader::Reader;
use crate::reader::parameters::places;
use crate::reader::rule::AnyOf;
use crate::stop::Stop;
use crate::terminal::Terminal;
use tm_base::List;

impl<'a> Reader<'a> {
    /// What stands behind `(`.
    #[cycle(ty)]
    pub fn behind_paren(&mut self, depth: u32) -> Result<Expr, Stop>
        requires { depth ≤ 32 }
        ensures { Reads (behind_paren_rule (type_at depth 0)) self.old self.new result }
    {
        if self.is_next(Class::CloseParen) {
            self.take(Class::CloseParen)?;
            return Ok(Expr::Tuple(List::new(self.alloc)));
        }
        let first = self.ty(depth)?;
        if !self.is_next(Class::Comma) {
            self.take(Class::CloseParen)?;
            return Ok(first);
        }
        self.take(Class::Comma)?;
        let mut found = List::new(self.alloc);
        found.add(first)?;
        let items = self.types(found, depth)?;
        self.take(Class::CloseParen)?;
        Ok(Expr::Tuple(items))
    }

    /// None, one or several types with commas, put behind what was found before.
    #[cycle(ty)]
    fn types(&mut self, found: List<Expr>, depth: u32) -> Result<List<Expr>, Stop>
        requires { depth ≤ 32 }
        ensures { Reads (listed_behind found (type_at depth 0)) self.old self.new result }
    {
        let mut found = found;
        for _ in 0..self.rest.len() {
            if !self.is_type_next() {
                return Ok(found);
            }
            found.add(self.ty(depth)?)?;
            if !self.accept(Class::Comma)? {
                return Ok(found);
            }
        }
        Ok(found)
    }

    /// One or several types with commas.
    #[cycle(ty)]
    fn types1(&mut self, depth: u32) -> Result<List<Expr>, Stop>
        requires { depth ≤ 32 }
        ensures { Reads (listed1_rule (type_at depth 0)) self.old self.new result }
    {
        let mut found = List::new(self.alloc);
        found.add(self.ty(depth)?)?;
        if !self.is_next(Class::Comma) {
            return Ok(found);
        }
        self.take(Class::Comma)?;
        self.types(found, depth)
    }

    /// A definition's name, with the lifetimes and the types that are given to it.
    #[cycle(ty)]
    pub fn named(&mut self, depth: u32) -> Result<Expr, Stop>
        requires { depth ≤ 32 }
        ensures { Reads (named_type (type_at depth 0)) self.old self.new result }
    {
        let name = self.definition_name()?.place;
        if !self.is_next(Class::Less) {
            return Ok(Expr::Named(name, List::new(self.alloc), List::new(self.alloc)));
        }
        self.take(Class::Less)?;
        let (lifetimes, types) = self.argument_list(depth)?;
        self.take(Class::Greater)?;
        let lifetimes = places(self.alloc, lifetimes.as_slice())?;
        Ok(Expr::Named(name, lifetimes, types))
    }

    /// Lifetimes and then types, one or several in all.
    #[cycle(ty)]
    fn argument_list(&mut self, depth: u32) -> Result<(List<Terminal>, List<Expr>), Stop>
        requires { depth ≤ 32 }
        ensures { Reads (argument_list_rule (type_at depth 0)) self.old self.new result }
    {
        if !self.is_next(Class::Lifetime) {
            return Ok((List::new(self.alloc), self.types1(depth)?));
        }
        let none = List::new(self.alloc);
        let (lifetimes, is_open) = self.so_far_behind(none, &AnyOf(&[Class::Lifetime]))?;
        if !is_open || !self.is_type_next() {
            return Ok((lifetimes, List::new(self.alloc)));
        }
        Ok((lifetimes, self.types1(depth)?))
    }
}
