ghost use Rattle.std.specs.Prelude.{◌≡◌, ◌≤◌, IfOk, length, map};
ghost use Rattle.tm_names.specs.Meanings.{meaning_of};
ghost use Rattle.tm_names.specs.Resolutions.{named, type_of};
ghost use Rattle.tm_names.specs.Sights.{life_in, types_in};
ghost use Rattle.tm_names.specs.Source.{names_in};

use crate::adding::add;
use crate::meaning::Meaning;
use crate::resolved::{Life, Open};
use crate::resolving::resolver::Resolver;
use crate::resolving::sight::Sight;
use tm_base::{Boxed, DefId, List, Memory};
use tm_parse::Expr;

impl<'a> Sight<'a> {
    /// The type parameters in sight.
    fn types(&self) -> &'a [u32]
        ensures types { result.now ≡ types_in self.now }
        ensures few { length result.now ≤ 16 }
    {
        match self {
            Sight::Params(_, types) => types.places,
            Sight::Declared(_) => &[],
        }
    }
}

impl Resolver<'_, '_> {
    /// The type that a name at a place stands for, with the lifetimes and the types that are given to it.
    fn named(&self, place: u32, lives: List<Life>, types: List<Open>) -> Open
        ensures { result ≡ named (meaning_of (names_in self.now.file.source)
            self.now.file.definitions.now.decls.now (types_in self.now.sight) place) lives types }
    {
        match self.file.meaning(self.sight.types(), place) {
            None => Open::Named(DefId(0), lives, types),
            Some(Meaning::Definition(number)) => Open::Named(DefId(number as u32), lives, types),
            Some(Meaning::Parameter(number)) => Open::Param(number as u32),
        }
    }

    /// A type with its names and lifetimes resolved.
    #[cycle(typing)]
    #[tactic(auto, unfolding(crate::specs::Resolutions::type_of))]
    pub fn resolve(&self, ty: &Expr) -> Result<Open, Memory>
        ensures { IfOk result (λ found. found ≡ type_of (meaning_of (names_in self.now.file.source)
            self.now.file.definitions.now.decls.now (types_in self.now.sight))
            (life_in (names_in self.now.file.source) self.now.sight) ty.now) }
    {
        let alloc = self.file.alloc;
        match ty {
            Expr::Prim(primitive) => Ok(Open::Prim(*primitive)),
            Expr::Never => Ok(Open::Never),
            Expr::Tuple(elements) => {
                let elements = self.resolve_all(elements.as_slice())?;
                Ok(Open::Tuple(elements))
            }
            Expr::Array(element, length) => {
                let element = self.resolve(element.get())?;
                Ok(Open::Array(Boxed::new(alloc, element)?, *length))
            }
            Expr::NonZero(primitive) => Ok(Open::NonZero(*primitive)),
            Expr::Wrap(wrapper, argument) => {
                let argument = self.resolve(argument.get())?;
                Ok(Open::Wrap(*wrapper, Boxed::new(alloc, argument)?))
            }
            Expr::Named(place, lifetimes, arguments) => {
                let lives = self.lives(lifetimes.as_slice())?;
                let types = self.resolve_all(arguments.as_slice())?;
                Ok(self.named(*place, lives, types))
            }
            Expr::Ref(place, mutable, pointee) => {
                let life = self.life(*place);
                let pointee = self.resolve(pointee.get())?;
                Ok(Open::Ref(life, *mutable, Boxed::new(alloc, pointee)?))
            }
        }
    }

    /// Types with their names and lifetimes resolved, in order.
    #[cycle(typing)]
    fn resolve_all(&self, types: &[Expr]) -> Result<List<Open>, Memory>
        ensures { IfOk result (λ found. found ≡ map (type_of
            (meaning_of (names_in self.now.file.source) self.now.file.definitions.now.decls.now
            (types_in self.now.sight))
            (life_in (names_in self.now.file.source) self.now.sight)) types.now) }
    {
        let mut found = List::new(self.file.alloc);
        for ty in types {
            let ty = self.resolve(ty)?;
            add(&mut found, ty)?;
        }
        Ok(found)
    }
}
