ghost use Rattle.std.specs.Prelude.{◌≡◌, ◌≤◌};
ghost use Rattle.tm_parse.specs.Combinators.{starts};
ghost use Rattle.tm_parse.specs.Reads.{Reads};
ghost use Rattle.tm_parse.specs.Types.{
  array_type,
  nonzero_type,
  one_level as one_level_rule,
  plain_type,
  reference_type,
  type_at,
  type_first,
  wrapped_type,
};

use crate::class::Class;
use crate::mark::Mark;
use crate::parsed::Expr;
use crate::reader::Reader;
use crate::stop::Stop;
use tm_base::Boxed;

impl<'a> Reader<'a> {
    /// Whether a terminal comes next that begins a type other than one in parentheses.
    pub fn is_plain_next(&self) -> bool
        ensures { result ≡ starts (plain_type (type_at 0 0)).first self.now.rest.now }
    {
        let signs = [
            Class::INTEGER,
            Class::SCALAR,
            Class::Bang,
            Class::OpenBracket,
            Class::Ampersand,
            Class::NonZero,
            Class::ALIAS,
            Class::GENERIC,
        ];
        self.is_any_next(&signs) || self.is_definition_name_next()
    }

    /// Whether a terminal that begins a type comes next.
    pub fn is_type_next(&self) -> bool
        ensures { result ≡ starts type_first self.now.rest.now }
    {
        self.is_next(Class::OpenParen) || self.is_plain_next()
    }

    /// An outermost type.
    pub fn outermost(&mut self) -> Result<Expr, Stop>
        ensures { Reads (type_at 0 0) self.old self.new result }
    {
        self.ty(0)
    }

    /// A type with so many types around it.
    #[cycle(ty)]
    #[tactic(auto, using(crate::proofs::grammar::Levels::type_none, crate::proofs::grammar::Levels::type_here, crate::proofs::grammar::Levels::type_fine))]
    pub fn ty(&mut self, depth: u32) -> Result<Expr, Stop>
        requires { depth ≤ 32 }
        ensures { Reads (type_at depth 0) self.old self.new result }
    {
        let begins = self.is_type_next();
        self.begin(begins, Mark::TypeWithin(depth))?;
        self.one_level(depth + 1)
    }

    /// What stands at one level, over the types in it.
    #[cycle(ty)]
    fn one_level(&mut self, depth: u32) -> Result<Expr, Stop>
        requires { depth ≤ 32 }
        ensures { Reads (one_level_rule (type_at depth 0)) self.old self.new result }
    {
        if !self.is_next(Class::OpenParen) {
            return self.plain(depth);
        }
        self.take(Class::OpenParen)?;
        self.behind_paren(depth)
    }

    /// A type that doesn't begin with `(`.
    #[cycle(ty)]
    pub fn plain(&mut self, depth: u32) -> Result<Expr, Stop>
        requires { depth ≤ 32 }
        ensures { Reads (plain_type (type_at depth 0)) self.old self.new result }
    {
        let primitives = [Class::INTEGER, Class::SCALAR];
        if self.is_any_next(&primitives) {
            return Ok(Expr::Prim(self.take_any(&primitives)?.primitive()));
        }
        if self.is_next(Class::Bang) {
            self.take(Class::Bang)?;
            return Ok(Expr::Never);
        }
        if self.is_next(Class::OpenBracket) {
            return self.array(depth);
        }
        if self.is_next(Class::Ampersand) {
            return self.reference(depth);
        }
        if self.is_next(Class::NonZero) {
            return self.nonzero();
        }
        if self.is_next(Class::ALIAS) {
            return Ok(Expr::NonZero(self.take(Class::ALIAS)?.primitive()));
        }
        if self.is_next(Class::GENERIC) {
            return self.wrapped(depth);
        }
        self.named(depth)
    }

    /// `[T; 3]`.
    #[cycle(ty)]
    fn array(&mut self, depth: u32) -> Result<Expr, Stop>
        requires { depth ≤ 32 }
        ensures { Reads (array_type (type_at depth 0)) self.old self.new result }
    {
        self.take(Class::OpenBracket)?;
        let element = self.ty(depth)?;
        self.take(Class::Semicolon)?;
        let length = self.length()?;
        self.take(Class::CloseBracket)?;
        Ok(Expr::Array(Boxed::new(self.alloc, element)?, length))
    }

    /// `&'a T` or `&'a mut T`.
    #[cycle(ty)]
    fn reference(&mut self, depth: u32) -> Result<Expr, Stop>
        requires { depth ≤ 32 }
        ensures { Reads (reference_type (type_at depth 0)) self.old self.new result }
    {
        self.take(Class::Ampersand)?;
        let lifetime = self.take(Class::Lifetime)?;
        let mutable = self.accept(Class::Mut)?;
        let pointee = Boxed::new(self.alloc, self.ty(depth)?)?;
        Ok(Expr::Ref(lifetime.place, mutable, pointee))
    }

    /// `NonZero<u8>`.
    fn nonzero(&mut self) -> Result<Expr, Stop>
        ensures { Reads (nonzero_type (type_at 0 0)) self.old self.new result }
    {
        self.take(Class::NonZero)?;
        self.take(Class::Less)?;
        let word = self.take(Class::INTEGER)?;
        self.take(Class::Greater)?;
        Ok(Expr::NonZero(word.primitive()))
    }

    /// `Option<T>` and the like.
    #[cycle(ty)]
    fn wrapped(&mut self, depth: u32) -> Result<Expr, Stop>
        requires { depth ≤ 32 }
        ensures { Reads (wrapped_type (type_at depth 0)) self.old self.new result }
    {
        let word = self.take(Class::GENERIC)?;
        self.take(Class::Less)?;
        let inner = self.ty(depth)?;
        self.take(Class::Greater)?;
        Ok(Expr::Wrap(word.wrapper(), Boxed::new(self.alloc, inner)?))
    }
}
