ghost use Rattle.std.specs.Prelude.{◌≡◌, IfOk};
ghost use Rattle.tm_base.specs.Faults.{fault_of};
ghost use Rattle.tm_base.specs.Parts.{has_interior};
ghost use Rattle.tm_base.specs.Worlds.{tables_of};
ghost use Rattle.tm_layout.specs.Known.{IsFactsOf};
ghost use Rattle.tm_layout.specs.Made.{IsLayoutAnswer, IsMadeFor, IsPlaceAnswer, OfNamed, OfType};

use crate::facts::Facts;
use crate::making::make_rows;
use crate::row::{RowFacts, row_at};
use crate::written::facts_of;
use std::alloc::Global;
use tm_base::{Ground, Memory, NamedId, Profile, Why, World};

/// The size and the alignment of a type, in bytes.
#[derive(Clone, Copy, PartialEq, Eq, Debug)]
pub struct Layout {
    pub size: u32,
    pub align: u32,
}

/// The layouts of a world's named types, from which those of all its types are answered.
#[derive(Debug, Drop)]
pub struct Layouts {
    profile: Profile,
    rows: Vec<Option<RowFacts>>,
}

impl Layouts {
    /// The layouts of a world's types. `Memory`: there wasn't enough memory.
    pub fn new(alloc: Global, world: &World) -> Result<Layouts, Memory>
        ensures made { IfOk result (IsMadeFor (tables_of world.now)) }
    {
        Ok(Layouts {
            profile: world.profile,
            rows: make_rows(alloc, world)?,
        })
    }

    /// The layout of a type of the world. `Err`: the cause for which it has none, which is its own, or
    /// else that of the first type that it holds by value and that has none.
    pub fn of(&self, g: &Ground) -> Result<Layout, Why>
        ensures answer { OfType self.now g.now (λ t. IsLayoutAnswer t result) }
    {
        let facts = self.facts(g);
        match facts.refusal {
            Some(why) => Err(why),
            None => Ok(Layout {
                size: facts.size,
                align: facts.align,
            }),
        }
    }

    /// Where a field of a variant stands in a named type, in bytes from its first. Variants and fields are
    /// counted from 0; a struct and a union are one variant. Of what has no place any number is answered.
    pub fn place(&self, id: NamedId, variant: u32, field: u32) -> u32
        ensures place { OfNamed self.now id (λ t. IsPlaceAnswer t variant field result) }
    {
        match row_at(self.rows.as_slice(), id) {
            Some(row) => row.place(variant, field),
            None => 0,
        }
    }

    /// Whether a type of the world is or holds by value one whose value may change behind a shared
    /// reference.
    pub fn interior(&self, g: &Ground) -> bool
        ensures interior { OfType self.now g.now (λ t. result ≡ has_interior t) }
    {
        self.facts(g).interior
    }

    /// The first cause of a type of the world itself, whatever those of its parts are.
    pub(crate) fn fault(&self, g: &Ground) -> Option<Why>
        ensures fault { OfType self.now g.now (λ t. result ≡ fault_of t) }
    {
        self.facts(g).fault
    }

    /// What is known of a type of the world.
    fn facts(&self, g: &Ground) -> Facts
        ensures { OfType self.now g.now (λ t. IsFactsOf t result) }
    {
        facts_of(self.profile, self.rows.as_slice(), g)
    }
}
