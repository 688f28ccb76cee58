ghost use Rattle.std.specs.Prelude.{◌≡◌, false, IfOk};
ghost use Rattle.tm_base.specs.declared.ground.Ground.{Named};
ghost use Rattle.tm_base.specs.Faults.{has_no_layout};
ghost use Rattle.tm_base.specs.Layout.{only};
ghost use Rattle.tm_base.specs.Tables.{expanded_in};
ghost use Rattle.tm_base.specs.Worlds.{IsTypeOver, tables_of};
ghost use Rattle.tm_layout.specs.Made.{IsMadeFor};
ghost use Rattle.tm_tree.specs.Exact.{IsTreeOf};
ghost use Rattle.tm_layout.specs.LaidOut.{IsLaidOut};
ghost use Rattle.tm_tree.specs.LaidOut.{IsSizedDefinition};
ghost use Rattle.tm_tree.specs.Parts.{parts_of, turns_of};

use crate::builder::Builder;
use crate::plain::{primitive, turns, wrapped};
use crate::private::{guarded, is_public};
use crate::rows::{Row, one};
use std::alloc::Global;
use tm_base::{Def, Ground, Kind, List, Memory, NamedId, Tree, World, Wrapper};
use tm_layout::Layouts;
use tm_niche::{Members, nonzero_tree};

/// The tree of a type of the world that has a layout: its words are the values of the type, in bytes as they
/// stand in memory. It has fewer than 2^31 leaves. `Memory`: there wasn't enough memory.
pub fn tree_of(alloc: Global, world: &World, layouts: &Layouts, g: &Ground) -> Result<Tree, Memory>
    requires made { IsMadeFor (tables_of world.now) layouts.now }
    requires over { IsTypeOver (tables_of world.now) g.now }
    requires judged { has_no_layout (expanded_in (tables_of world.now) g.now) ≡ false }
    ensures tree { IfOk result (IsTreeOf (tables_of world.now) g.now) }
{
    let builder = Builder {
        alloc,
        world,
        layouts,
    };
    builder.parts(g)?.in_turn(alloc)
}

/// The types of the fields of a struct or a union, which is one variant.
fn only(types: &[List<Ground>]) -> &[Ground]
    ensures { result.now ≡ only types.now }
{
    match types {
        [fields, ..] => fields.as_slice(),
        [] => &[],
    }
}

impl Builder<'_> {
    /// The trees of a type in a row.
    #[cycle(building)]
    pub fn parts(&self, g: &Ground) -> Result<Members, Memory>
        requires { IsLaidOut (tables_of self.now.world.now) g.now }
        ensures { let part = expanded_in (tables_of self.now.world.now) in
            IfOk result (λ parts. parts ≡ parts_of (part g.now)) }
    {
        match g {
            Ground::Prim(p) => primitive(self.alloc, self.world.profile, *p, self.size(g)),
            Ground::Never => one(self.alloc, Tree::Never),
            Ground::Unit => Ok(Members::new(self.alloc)),
            Ground::Tuple(_) => unreachable!(),
            Ground::Array(element, count) => self.array_parts(element.get(), *count),
            Ground::Named(id) => self.named(*id),
            Ground::NonZero(_) => one(self.alloc, nonzero_tree(self.alloc, self.size(g))?),
            Ground::Wrap(wrapper, argument) => match *wrapper {
                Wrapper::PhantomData => Ok(Members::new(self.alloc)),
                other => wrapped(self.alloc, other, self.size(g), self.parts(argument.get())?),
            },
            Ground::Ref(id) => one(self.alloc, Tree::Ref(*id)),
        }
    }

    /// The trees of an array in a row. An element that doesn't stand in it isn't built.
    #[cycle(building)]
    fn array_parts(&self, element: &Ground, count: u32) -> Result<Members, Memory>
        requires { IsLaidOut (tables_of self.now.world.now) element.now }
        ensures { let part = expanded_in (tables_of self.now.world.now) in
            IfOk result (λ parts. parts ≡ turns_of count (parts_of (part element.now))) }
    {
        if count == 0 {
            Ok(Members::new(self.alloc))
        } else {
            turns(self.alloc, count, self.parts(element)?)
        }
    }

    /// The trees of a named type in a row.
    #[cycle(building)]
    fn named(&self, id: NamedId) -> Result<Members, Memory>
        requires { IsLaidOut (tables_of self.now.world.now) (Named id) }
        ensures { let part = expanded_in (tables_of self.now.world.now) in
            IfOk result (λ parts. parts ≡ parts_of (part (Named id))) }
    {
        let Some(row) = self.world.named.get(id.0 as usize) else {
            unreachable!();
        };
        let Some(def) = self.world.defs.get(row.def.0 as usize) else {
            unreachable!();
        };
        let size = self.size(&Ground::Named(id));
        self.defined(id, size, def, row.types.as_slice())
    }

    /// The trees of a named type of so many bytes, by its definition and the types of its fields.
    #[cycle(building)]
    fn defined(
        &self,
        id: NamedId,
        size: u32,
        def: &Def,
        types: &[List<Ground>],
    ) -> Result<Members, Memory>
        requires { IsSizedDefinition (tables_of self.now.world.now) id size def.now types.now }
        ensures { let part = expanded_in (tables_of self.now.world.now) in
            IfOk result (λ parts. parts ≡ parts_of (part (Named id))) }
    {
        match def.kind {
            Kind::Struct if def.repr.transparent => {
                guarded(self.alloc, is_public(def), self.bare_parts(only(types))?)
            }
            Kind::Struct => {
                let row = Row::new(self.alloc);
                let parts = self.field_parts(row, id, 0, size, only(types))?;
                guarded(self.alloc, is_public(def), parts)
            }
            Kind::Union => {
                let ways = self.union_ways(size, only(types))?;
                let parts = one(self.alloc, ways.one_of(self.alloc)?)?;
                guarded(self.alloc, is_public(def), parts)
            }
            Kind::Enum => {
                let ways = self.variant_ways(id, size, def, types)?;
                one(self.alloc, ways.one_of(self.alloc)?)
            }
        }
    }
}
