ghost use Rattle.std.specs.Prelude.{◌≡◌, IfOk, refl};
ghost use Rattle.tm_parse.specs.Definitions.{
  enum_body as enum_body_rule,
  single as single_of,
  struct_body as struct_body_rule,
  union_body as union_body_rule,
  variant as variant_rule,
  variant_fields as variant_fields_rule,
};
ghost use Rattle.tm_parse.specs.Reads.{Reads};
ghost use Rattle.tm_parse.specs.Shapes.{optional};
ghost use Rattle.tm_parse.specs.Types.{or_none as or_none_of};

use crate::class::Class;
use crate::mark::Mark;
use crate::parsed::{DeclField, DeclVariant};
use crate::reader::Reader;
use crate::reader::fields::{Field, Place, VariantField, VariantPlace};
use crate::reader::rule::Rule;
use crate::stop::Stop;
use std::alloc::Global;
use tm_base::{List, Memory};

/// A variant of an enum.
struct Variant;

impl Rule for Variant {
    type Value = DeclVariant;

    ghost rule = { λ _. variant_rule 0 };

    ghost begun = { λ _. refl };

    fn begins(&self, reader: &Reader) -> bool {
        reader.is_name_next()
    }

    fn read(&self, reader: &mut Reader) -> Result<DeclVariant, Stop> {
        let begins = self.begins(reader);
        reader.begin(begins, Mark::Variant)?;
        let name = Some(reader.name()?.place);
        let fields = or_none(reader.alloc, reader.optional_fields()?);
        if !reader.is_next(Class::Equals) {
            return Ok(DeclVariant {
                name,
                negative: false,
                value: None,
                fields,
            });
        }
        let (negative, value) = reader.discriminant()?;
        Ok(DeclVariant {
            name,
            negative,
            value: Some(value),
            fields,
        })
    }
}

/// The fields, or none where they are left out.
fn or_none(alloc: Global, fields: Option<List<DeclField>>) -> List<DeclField>
    ensures { result ≡ or_none_of fields }
{
    match fields {
        Some(fields) => fields,
        None => List::new(alloc),
    }
}

/// The one variant of a struct or a union.
fn single(alloc: Global, fields: List<DeclField>) -> Result<List<DeclVariant>, Memory>
    ensures { IfOk result (λ found. found ≡ single_of fields) }
{
    let mut found = List::new(alloc);
    found.add(DeclVariant {
        name: None,
        negative: false,
        value: None,
        fields,
    })?;
    Ok(found)
}

impl<'a> Reader<'a> {
    /// The fields of a variant.
    fn variant_fields(&mut self) -> Result<List<DeclField>, Stop>
        ensures { Reads (variant_fields_rule 0) self.old self.new result }
    {
        if self.is_next(Class::OpenBrace) {
            self.take(Class::OpenBrace)?;
            let fields = self.listed(&VariantField)?;
            self.take(Class::CloseBrace)?;
            return Ok(fields);
        }
        self.take(Class::OpenParen)?;
        let fields = self.listed(&VariantPlace)?;
        self.take(Class::CloseParen)?;
        Ok(fields)
    }

    /// The fields of a variant, which may be left out.
    fn optional_fields(&mut self) -> Result<Option<List<DeclField>>, Stop>
        ensures { Reads (optional (variant_fields_rule 0)) self.old self.new result }
    {
        if !self.is_any_next(&[Class::OpenBrace, Class::OpenParen]) {
            return Ok(None);
        }
        Ok(Some(self.variant_fields()?))
    }

    /// What stands behind the head of a struct.
    pub fn struct_body(&mut self) -> Result<List<DeclVariant>, Stop>
        ensures { Reads (struct_body_rule 0) self.old self.new result }
    {
        if self.is_next(Class::Semicolon) {
            self.take(Class::Semicolon)?;
            return Ok(single(self.alloc, List::new(self.alloc))?);
        }
        if self.is_next(Class::OpenBrace) {
            self.take(Class::OpenBrace)?;
            let fields = self.listed(&Field)?;
            self.take(Class::CloseBrace)?;
            return Ok(single(self.alloc, fields)?);
        }
        self.take(Class::OpenParen)?;
        let fields = self.listed(&Place)?;
        self.take(Class::CloseParen)?;
        self.take(Class::Semicolon)?;
        Ok(single(self.alloc, fields)?)
    }

    /// What stands behind the head of a union.
    pub fn union_body(&mut self) -> Result<List<DeclVariant>, Stop>
        ensures { Reads (union_body_rule 0) self.old self.new result }
    {
        self.take(Class::OpenBrace)?;
        let fields = self.listed1(&Field)?;
        self.take(Class::CloseBrace)?;
        Ok(single(self.alloc, fields)?)
    }

    /// What stands behind the head of an enum.
    pub fn enum_body(&mut self) -> Result<List<DeclVariant>, Stop>
        ensures { Reads (enum_body_rule 0) self.old self.new result }
    {
        self.take(Class::OpenBrace)?;
        let variants = self.listed(&Variant)?;
        self.take(Class::CloseBrace)?;
        Ok(variants)
    }
}
