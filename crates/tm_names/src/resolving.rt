ghost use Rattle.std.specs.Prelude.{◌≡◌, ◌≤◌, All, IfOk, IsTrue, length, map};
ghost use Rattle.std.specs.List.{list_all};
ghost use Rattle.tm_names.specs.Discriminants.{valued};
ghost use Rattle.tm_names.specs.Meanings.{meaning_of};
ghost use Rattle.tm_names.specs.Narrow.{IsNarrow, is_value_narrow};
ghost use Rattle.tm_names.specs.Resolutions.{ask_of, bound_of, decl_types, def_of, field_of, regions_of, resolved_of, text_or_none, type_of, variant_of};
ghost use Rattle.tm_names.specs.Sights.{life_in, types_in};
ghost use Rattle.tm_names.specs.Source.{IsTokenized, names_in};

mod copying;
mod lives;
mod reprs;
mod resolver;
mod sight;
mod typing;

use crate::adding::add;
use crate::counting::{narrow, next, value_in};
use crate::file::File;
use crate::resolved::{Open, OpenAsk, Resolved};
use crate::resolving::copying::token_text;
use crate::resolving::reprs::repr;
use crate::resolving::resolver::Resolver;
use crate::resolving::sight::{Names, Sight};
use crate::value::Value;
use tm_base::{Bound, Def, Field, List, Memory, Text, Variant};
use tm_parse::{Decl, DeclBound, DeclField, DeclVariant, Parsed};

impl Resolver<'_, '_> {
    /// The types of a variant's fields.
    fn field_types(&self, declared: &DeclVariant) -> Result<List<Open>, Memory>
        ensures { IfOk result (λ types. types ≡ map (λ field. type_of
            (meaning_of (names_in self.now.file.source) self.now.file.definitions.now.decls.now
            (types_in self.now.sight)) (life_in (names_in self.now.file.source) self.now.sight)
            field.ty) declared.now.fields) }
    {
        let mut types = List::new(self.file.alloc);
        for field in declared.fields.as_slice() {
            let ty = self.resolve(&field.ty)?;
            add(&mut types, ty)?;
        }
        Ok(types)
    }
}

impl File<'_, '_> {
    /// The name of the token at a place.
    fn text(&self, place: u32) -> Result<Text, Memory>
        requires { IsTokenized self.now.source }
        ensures { IfOk result (λ text. text ≡ names_in self.now.source place) }
    {
        token_text(self.alloc, self.source.text, self.source.tokens, place)
    }

    /// A name that is written, else the empty one.
    fn text_or_none(&self, place: Option<u32>) -> Result<Text, Memory>
        requires { IsTokenized self.now.source }
        ensures { IfOk result (λ text. text ≡ text_or_none (names_in self.now.source) place) }
    {
        match place {
            None => Ok(Text::new(self.alloc)),
            Some(place) => self.text(place),
        }
    }

    /// Fields, without their types.
    fn fields(&self, declared: &[DeclField]) -> Result<List<Field>, Memory>
        requires { IsTokenized self.now.source }
        ensures { IfOk result (λ fields. fields
            ≡ map (field_of (names_in self.now.source)) declared.now) }
    {
        let mut fields = List::new(self.alloc);
        for field in declared {
            let name = self.text_or_none(field.name)?;
            let public = field.public;
            add(&mut fields, Field { name, public })?;
        }
        Ok(fields)
    }

    /// A variant with its discriminant.
    fn variant(&self, declared: &DeclVariant, value: i128) -> Result<Variant, Memory>
        requires { IsTokenized self.now.source }
        ensures { IfOk result (λ variant. variant ≡ variant_of (names_in self.now.source)
            (record { variant = declared.now; value = value })) }
    {
        Ok(Variant {
            name: self.text_or_none(declared.name)?,
            value,
            fields: self.fields(declared.fields.as_slice())?,
        })
    }

    /// Variants with their discriminants.
    fn variants(&self, declared: &[DeclVariant]) -> Result<List<Variant>, Memory>
        requires tokenized { IsTokenized self.now.source }
        requires narrow { IsTrue (list_all (λ v. is_value_narrow v.value) (valued declared.now)) }
        ensures { IfOk result (λ variants. variants
            ≡ map (variant_of (names_in self.now.source)) (valued declared.now)) }
    {
        let mut variants = List::new(self.alloc);
        let mut implied = Value::AtLeastZero(0);
        for item in declared {
            let value = value_in(implied, item);
            let variant = self.variant(item, narrow(value))?;
            add(&mut variants, variant)?;
            implied = next(value);
        }
        Ok(variants)
    }

    /// A definition, without the types of its fields.
    fn definition(&self, declared: &Decl) -> Result<Def, Memory>
        requires tokenized { IsTokenized self.now.source }
        requires narrow { IsNarrow declared.now }
        ensures { IfOk result (λ def. def ≡ def_of (names_in self.now.source) declared.now) }
    {
        Ok(Def {
            name: self.text(declared.name)?,
            kind: declared.kind,
            repr: repr(declared),
            variants: self.variants(declared.variants.as_slice())?,
        })
    }

    /// The types of a definition's fields.
    fn types(&self, declared: &Decl) -> Result<List<List<Open>>, Memory>
        requires few { length declared.now.params ≤ 16 }
        requires few_types { length declared.now.type_params ≤ 16 }
        ensures { IfOk result (λ types. types ≡ decl_types (names_in self.now.source)
            self.now.definitions.now.decls.now declared.now) }
    {
        let lifetimes = Names {
            places: declared.params.as_slice(),
        };
        let types = Names {
            places: declared.type_params.as_slice(),
        };
        let resolver = Resolver {
            file: *self,
            sight: Sight::Params(lifetimes, types),
        };
        let mut types = List::new(self.alloc);
        for variant in declared.variants.as_slice() {
            let fields = resolver.field_types(variant)?;
            add(&mut types, fields)?;
        }
        Ok(types)
    }

    /// All definitions, without the types of their fields.
    fn all_definitions(&self) -> Result<List<Def>, Memory>
        requires tokenized { IsTokenized self.now.source }
        requires narrow { All IsNarrow self.now.definitions.now.decls.now }
        ensures { IfOk result (λ defs. defs ≡ map (def_of (names_in self.now.source))
            self.now.definitions.now.decls.now) }
    {
        let mut defs = List::new(self.alloc);
        for decl in self.definitions.decls {
            let def = self.definition(decl)?;
            add(&mut defs, def)?;
        }
        Ok(defs)
    }

    /// The types of the fields of all definitions.
    fn all_types(&self) -> Result<List<List<List<Open>>>, Memory>
        requires { All IsNarrow self.now.definitions.now.decls.now }
        ensures { IfOk result (λ found. found ≡ map (decl_types (names_in self.now.source)
            self.now.definitions.now.decls.now) self.now.definitions.now.decls.now) }
    {
        let mut found = List::new(self.alloc);
        for decl in self.definitions.decls {
            let types = self.types(decl)?;
            add(&mut found, types)?;
        }
        Ok(found)
    }

    /// The texts of all regions: `'static` and the declared lifetimes.
    fn all_regions(&self, lifetimes: &[u32]) -> Result<List<Text>, Memory>
        requires { IsTokenized self.now.source }
        ensures { IfOk result (λ regions. regions
            ≡ regions_of (names_in self.now.source) lifetimes.now) }
    {
        let mut regions = List::new(self.alloc);
        let mut first = Text::new(self.alloc);
        first.push_str("'static")?;
        add(&mut regions, first)?;
        for place in lifetimes {
            let region = self.text(*place)?;
            add(&mut regions, region)?;
        }
        Ok(regions)
    }

    /// All items `outlives`, where these lifetimes are declared.
    fn all_bounds(&self, lifetimes: &Names, declared: &[DeclBound]) -> Result<List<Bound>, Memory>
        ensures { IfOk result (λ bounds. bounds ≡ map
            (bound_of (names_in self.now.source) lifetimes.now.places.now) declared.now) }
    {
        let mut bounds = List::new(self.alloc);
        for item in declared {
            add(&mut bounds, self.source.bound(lifetimes, item))?;
        }
        Ok(bounds)
    }

    /// All questions of a file with these definitions.
    fn all_questions(&self, parsed: &Parsed) -> Result<List<OpenAsk>, Memory>
        requires same { self.now.definitions.now.decls.now ≡ parsed.now.decls }
        requires few { length parsed.now.lifetimes ≤ 16 }
        ensures { IfOk result (λ asks. asks ≡ map (ask_of (names_in self.now.source) parsed.now)
            parsed.now.questions) }
    {
        let resolver = Resolver {
            file: *self,
            sight: Sight::Declared(Names {
                places: parsed.lifetimes.as_slice(),
            }),
        };
        let mut asks = List::new(self.alloc);
        for item in parsed.questions.as_slice() {
            let ask = OpenAsk {
                src: resolver.resolve(&item.src)?,
                dst: resolver.resolve(&item.dst)?,
                assume: item.assume,
            };
            add(&mut asks, ask)?;
        }
        Ok(asks)
    }

    /// What the names of a file with these definitions mean.
    pub fn resolved(&self, parsed: &Parsed) -> Result<Resolved, Memory>
        requires tokenized { IsTokenized self.now.source }
        requires same { self.now.definitions.now.decls.now ≡ parsed.now.decls }
        requires narrow { All IsNarrow self.now.definitions.now.decls.now }
        requires few { length parsed.now.lifetimes ≤ 16 }
        ensures { IfOk result (λ found. found ≡ resolved_of self.now.source.profile
            (names_in self.now.source) parsed.now) }
    {
        let lifetimes = Names {
            places: parsed.lifetimes.as_slice(),
        };
        Ok(Resolved {
            profile: self.source.profile,
            defs: self.all_definitions()?,
            types: self.all_types()?,
            regions: self.all_regions(lifetimes.places)?,
            bounds: self.all_bounds(&lifetimes, parsed.bounds.as_slice())?,
            asks: self.all_questions(parsed)?,
        })
    }
}
