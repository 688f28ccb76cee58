ghost use Rattle.std.specs.Prelude.{◌≡◌, refl};
ghost use Rattle.tm_parse.specs.Definitions.{
  bare as bare_rule,
  behind_pub as behind_pub_rule,
  field as field_rule,
  narrowed as narrowed_rule,
  opened as opened_rule,
  place as place_rule,
  unnamed as unnamed_of,
  variant_field as variant_field_rule,
  variant_place as variant_place_rule,
};
ghost use Rattle.tm_parse.specs.Reads.{Reads};

use crate::class::Class;
use crate::mark::Mark;
use crate::parsed::{DeclField, Expr};
use crate::reader::Reader;
use crate::reader::names::{NARROWER, is_public};
use crate::reader::rule::Rule;
use crate::stop::Stop;

/// A field with a name.
pub struct Field;

impl Rule for Field {
    type Value = DeclField;

    ghost rule = { λ _. field_rule 0 };

    ghost begun = { λ _. refl };

    fn begins(&self, reader: &Reader) -> bool {
        reader.is_name_next() || reader.is_next(Class::Pub)
    }

    fn read(&self, reader: &mut Reader) -> Result<DeclField, Stop> {
        let begins = self.begins(reader);
        reader.begin(begins, Mark::Field)?;
        let visibility = reader.optional_visibility()?;
        let name = Some(reader.name()?.place);
        reader.take(Class::Colon)?;
        let ty = reader.outermost()?;
        let public = is_public(visibility);
        Ok(DeclField { name, public, ty })
    }
}

/// A field without a name.
pub struct Place;

impl Rule for Place {
    type Value = DeclField;

    ghost rule = { λ _. place_rule 0 };

    ghost begun = { λ _. refl };

    fn begins(&self, reader: &Reader) -> bool {
        reader.is_type_next() || reader.is_next(Class::Pub)
    }

    fn read(&self, reader: &mut Reader) -> Result<DeclField, Stop> {
        let begins = self.begins(reader);
        reader.begin(begins, Mark::Field)?;
        if reader.is_type_next() {
            return Ok(unnamed(false, reader.outermost()?));
        }
        reader.take(Class::Pub)?;
        reader.behind_pub()
    }
}

/// A field of a variant, with a name.
pub struct VariantField;

impl Rule for VariantField {
    type Value = DeclField;

    ghost rule = { λ _. variant_field_rule 0 };

    ghost begun = { λ _. refl };

    fn begins(&self, reader: &Reader) -> bool {
        reader.is_name_next()
    }

    fn read(&self, reader: &mut Reader) -> Result<DeclField, Stop> {
        let begins = self.begins(reader);
        reader.begin(begins, Mark::Field)?;
        let name = Some(reader.name()?.place);
        reader.take(Class::Colon)?;
        let ty = reader.outermost()?;
        Ok(DeclField {
            name,
            public: false,
            ty,
        })
    }
}

/// A field of a variant, without a name.
pub struct VariantPlace;

impl Rule for VariantPlace {
    type Value = DeclField;

    ghost rule = { λ _. variant_place_rule 0 };

    ghost begun = { λ _. refl };

    fn begins(&self, reader: &Reader) -> bool {
        reader.is_type_next()
    }

    fn read(&self, reader: &mut Reader) -> Result<DeclField, Stop> {
        let begins = self.begins(reader);
        reader.begin(begins, Mark::Field)?;
        Ok(unnamed(false, reader.outermost()?))
    }
}

/// A field without a name, of this type.
fn unnamed(public: bool, ty: Expr) -> DeclField
    ensures { result ≡ unnamed_of public ty }
{
    DeclField {
        name: None,
        public,
        ty,
    }
}

impl<'a> Reader<'a> {
    /// What stands behind `pub` in a field without a name.
    fn behind_pub(&mut self) -> Result<DeclField, Stop>
        ensures { Reads (behind_pub_rule 0) self.old self.new result }
    {
        if self.is_plain_next() {
            return self.bare();
        }
        self.take(Class::OpenParen)?;
        if self.is_any_next(&NARROWER) {
            return self.narrowed();
        }
        self.opened()
    }

    /// A type behind `pub` that doesn't begin with `(`.
    fn bare(&mut self) -> Result<DeclField, Stop>
        ensures { Reads (bare_rule 0) self.old self.new result }
    {
        let begins = self.is_plain_next();
        self.begin(begins, Mark::TypeWithin(0))?;
        Ok(unnamed(true, self.plain(1)?))
    }

    /// What stands behind `pub (` where the `(` belongs to `pub`.
    fn narrowed(&mut self) -> Result<DeclField, Stop>
        ensures { Reads (narrowed_rule 0) self.old self.new result }
    {
        self.take_any(&NARROWER)?;
        self.take(Class::CloseParen)?;
        Ok(unnamed(false, self.outermost()?))
    }

    /// What stands behind `pub (` where the `(` belongs to the type.
    fn opened(&mut self) -> Result<DeclField, Stop>
        ensures { Reads (opened_rule 0) self.old self.new result }
    {
        let begins = self.is_next(Class::CloseParen) || self.is_type_next();
        self.begin(begins, Mark::TypeWithin(0))?;
        Ok(unnamed(true, self.behind_paren(1)?))
    }
}
