ghost use Rattle.std.specs.Prelude.{◌≡◌};
ghost use Rattle.tm_parse.specs.Combinators.{to};
ghost use Rattle.tm_parse.specs.Definitions.{
  body_of,
  definition as definition_rule,
  headed_any as headed_any_rule,
  headed_with,
  word_of,
};
ghost use Rattle.tm_parse.specs.Reads.{Reads};

use crate::class::Class;
use crate::mark::Mark;
use crate::parsed::{Decl, DeclRepr, DeclVariant};
use crate::reader::Reader;
use crate::stop::Stop;
use tm_base::{Kind, List};

/// The word that a definition of the kind begins with.
fn word_of(kind: Kind) -> Class
    ensures { result ≡ word_of kind }
{
    match kind {
        Kind::Struct => Class::Struct,
        Kind::Union => Class::Union,
        Kind::Enum => Class::Enum,
    }
}

impl<'a> Reader<'a> {
    /// What stands behind the head of a definition of the kind.
    fn body(&mut self, kind: Kind) -> Result<List<DeclVariant>, Stop>
        ensures { Reads (body_of kind 0) self.old self.new result }
    {
        match kind {
            Kind::Struct => self.struct_body(),
            Kind::Union => self.union_body(),
            Kind::Enum => self.enum_body(),
        }
    }

    /// A definition of the kind, with the items of its attributes.
    fn headed(&mut self, kind: Kind, reprs: List<DeclRepr>) -> Result<Decl, Stop>
        ensures { Reads (headed_with kind reprs) self.old self.new result }
    {
        let word = word_of(kind);
        let begins = self.is_next(word);
        self.begin(begins, Mark::Definition)?;
        self.take(word)?;
        let name = self.definition_name()?.place;
        let (params, type_params) = self.parameters()?;
        let variants = self.body(kind)?;
        Ok(Decl {
            kind,
            name,
            reprs,
            params,
            type_params,
            variants,
        })
    }

    /// A struct, a union or an enum, with the items of its attributes.
    fn headed_any(&mut self, reprs: List<DeclRepr>) -> Result<Decl, Stop>
        ensures { Reads (to (λ make. make reprs) (headed_any_rule 0)) self.old self.new result }
    {
        if self.is_next(Class::Struct) {
            return self.headed(Kind::Struct, reprs);
        }
        if self.is_next(Class::Union) {
            return self.headed(Kind::Union, reprs);
        }
        self.headed(Kind::Enum, reprs)
    }

    /// A definition. Its own visibility says nothing.
    pub fn definition(&mut self) -> Result<Decl, Stop>
        ensures { Reads (definition_rule 0) self.old self.new result }
    {
        let reprs = self.attributes()?;
        self.optional_visibility()?;
        self.headed_any(reprs)
    }
}
