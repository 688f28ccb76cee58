ghost use Rattle.std.specs.Prelude.{◌≡◌, ◌++◌, IfOk, OnOk, refl};
ghost use Rattle.tm_parse.specs.Combinators.{to};
ghost use Rattle.tm_parse.specs.Definitions.{
  attribute as attribute_rule,
  derive as derive_rule,
  packed_to,
  placed_at,
  repr as repr_rule,
  repr_item as repr_item_rule,
  repr_or_derive as repr_or_derive_rule,
  in_parens as in_parens_rule,
  together as together_of,
};
ghost use Rattle.tm_parse.specs.Reads.{Reads};
ghost use Rattle.tm_parse.specs.Shapes.{many as many_rule, optional};

use crate::class::Class;
use crate::parsed::{DeclRepr, ReprItem};
use crate::reader::Reader;
use crate::reader::names::Word;
use crate::reader::rule::Rule;
use crate::stop::Stop;
use std::alloc::Global;
use tm_base::{List, Memory};

/// An item of a `repr` attribute.
struct Item;

impl Rule for Item {
    type Value = ReprItem;

    ghost rule = { λ _. repr_item_rule };

    ghost begun = { λ _. refl };

    fn begins(&self, reader: &Reader) -> bool {
        reader.is_any_next(&[
            Class::C,
            Class::Transparent,
            Class::INTEGER,
            Class::Packed,
            Class::Align,
        ])
    }

    fn read(&self, reader: &mut Reader) -> Result<ReprItem, Stop> {
        if reader.is_next(Class::C) {
            reader.take(Class::C)?;
            return Ok(ReprItem::C);
        }
        if reader.is_next(Class::Transparent) {
            reader.take(Class::Transparent)?;
            return Ok(ReprItem::Transparent);
        }
        if reader.is_next(Class::INTEGER) {
            return Ok(ReprItem::Int(reader.take(Class::INTEGER)?.primitive()));
        }
        if reader.is_next(Class::Packed) {
            reader.take(Class::Packed)?;
            return Ok(ReprItem::Packed(reader.packed_to()?));
        }
        reader.take(Class::Align)?;
        Ok(ReprItem::Align(reader.in_parens()?.number()))
    }
}

/// An attribute, as the items of `repr`.
struct Attribute;

impl Rule for Attribute {
    type Value = List<DeclRepr>;

    ghost rule = { λ _. attribute_rule };

    ghost begun = { λ _. refl };

    fn begins(&self, reader: &Reader) -> bool {
        reader.is_next(Class::Hash)
    }

    fn read(&self, reader: &mut Reader) -> Result<List<DeclRepr>, Stop> {
        reader.take(Class::Hash)?;
        reader.take(Class::OpenBracket)?;
        let items = reader.repr_or_derive()?;
        reader.take(Class::CloseBracket)?;
        Ok(items)
    }
}

/// The items, with the place of the attribute's word.
fn placed(alloc: Global, token: u32, items: &[ReprItem]) -> Result<List<DeclRepr>, Memory>
    ensures { IfOk result (λ found. found ≡ placed_at token items.now) }
{
    let mut found = List::new(alloc);
    for item in items {
        found.add(DeclRepr { token, item: *item })?;
    }
    Ok(found)
}

/// Adds all items at the end.
fn append(found: &mut List<DeclRepr>, items: &[DeclRepr]) -> Result<(), Memory>
    ensures { OnOk result (found.new ≡ found.old ++ items.now) }
{
    for item in items {
        found.add(*item)?;
    }
    Ok(())
}

/// The items of all lists, in order.
fn together(alloc: Global, lists: &[List<DeclRepr>]) -> Result<List<DeclRepr>, Memory>
    ensures { IfOk result (λ found. found ≡ together_of lists.now) }
{
    let mut found = List::new(alloc);
    for items in lists {
        append(&mut found, items.as_slice())?;
    }
    Ok(found)
}

impl<'a> Reader<'a> {
    /// The bytes that a struct is packed to, behind `packed`: 1 where none are written.
    fn packed_to(&mut self) -> Result<u128, Stop>
        ensures { Reads (to packed_to (optional in_parens_rule)) self.old self.new result }
    {
        if !self.is_next(Class::OpenParen) {
            return Ok(1);
        }
        Ok(self.in_parens()?.number())
    }

    /// `repr(..)`.
    fn repr(&mut self) -> Result<List<DeclRepr>, Stop>
        ensures { Reads repr_rule self.old self.new result }
    {
        let word = self.take(Class::Repr)?;
        self.take(Class::OpenParen)?;
        let items = self.listed1(&Item)?;
        self.take(Class::CloseParen)?;
        Ok(placed(self.alloc, word.place, items.as_slice())?)
    }

    /// `derive(..)`, which says nothing.
    fn derive(&mut self) -> Result<List<DeclRepr>, Stop>
        ensures { Reads derive_rule self.old self.new result }
    {
        self.take(Class::Derive)?;
        self.take(Class::OpenParen)?;
        self.listed(&Word)?;
        self.take(Class::CloseParen)?;
        Ok(List::new(self.alloc))
    }

    /// What stands between the brackets of an attribute.
    fn repr_or_derive(&mut self) -> Result<List<DeclRepr>, Stop>
        ensures { Reads repr_or_derive_rule self.old self.new result }
    {
        if self.is_next(Class::Repr) {
            return self.repr();
        }
        self.derive()
    }

    /// The items of all attributes.
    pub fn attributes(&mut self) -> Result<List<DeclRepr>, Stop>
        ensures { Reads (to together_of (many_rule attribute_rule)) self.old self.new result }
    {
        let lists = self.many(&Attribute)?;
        Ok(together(self.alloc, lists.as_slice())?)
    }
}
