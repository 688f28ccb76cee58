//! The leaves of the pointees: the references that they are or hold by value.
ghost use Rattle.std.specs.Prelude.{◌≡◌, ℕ, ◌&&◌, ◌||◌, ◌↔◌, false, IfOk, IsTrue, length, slice_get, slice_index_or};
ghost use Rattle.tm_base.specs.declared.ground.Ground.{Named};
ghost use Rattle.tm_base.specs.Worlds.{IsTypeOver, tables_of};
ghost use Rattle.tm_layout.specs.Made.{EachIs};
ghost use Rattle.tm_refs.specs.Leaves.{AreAdded, AreLeavesOf, leads_in, leaf_of, some_leaf, variant_leaf};
ghost use Rattle.tm_refs.specs.Looks.{depends_on, depends_on_some, row_is_mutable};
ghost use Rattle.tm_refs.specs.Serves.{HoldsReference};

use crate::pair::Pair;
use crate::table::MOST;
use std::alloc::Global;
use tm_base::{Ground, List, Memory, NamedId, RefId, World, Wrapper};

/// For each reference, whether it is a leaf.
pub type Row = [bool; MOST];

/// The leaves of the pointees of a world's references.
#[derive(Debug, Drop)]
pub struct Leaves {
    pub rows: Vec<Row>,
}

impl Leaves {
    /// Those of a world's references.
    pub fn new(alloc: Global, world: &World) -> Result<Leaves, Memory>
        ensures { IfOk result (λ leaves. AreLeavesOf (tables_of world.now) leaves.rows.items) }
    {
        let mut rows = Vec::new(alloc);
        for row in world.refs.as_slice() {
            rows.push(leaves_of(world, &row.pointee))?;
        }
        Ok(Leaves { rows })
    }

    /// Whether the pointee of a reference has the leaf.
    fn leads(&self, reference: RefId, leaf: RefId) -> bool
        ensures { result ≡ leads_in self.now.rows.items reference leaf }
    {
        let row = self.rows.get(reference.0 as usize);
        row.and_then(|row| row.get(leaf.0 as usize)) == Some(&true)
    }

    /// Whether a pair depends on another: what its pointees are may rest on that.
    fn depends(&self, world: &World, pair: Pair, other: Pair) -> bool
        requires leaves { AreLeavesOf (tables_of world.now) self.now.rows.items }
        ensures { result ≡ depends_on (tables_of world.now) pair other }
    {
        (self.leads(pair.source, other.source) && self.leads(pair.target, other.target))
            || (is_mutable(world, pair.target)
                && self.leads(pair.target, other.source)
                && self.leads(pair.source, other.target))
    }

    /// Whether a pair depends on some of others.
    pub fn depends_on_some(&self, world: &World, others: &[Pair], pair: Pair) -> bool
        requires leaves { AreLeavesOf (tables_of world.now) self.now.rows.items }
        ensures { result ≡ depends_on_some (tables_of world.now) others.now pair }
    {
        others.iter().any(|other| self.depends(world, pair, *other))
    }
}

/// Whether a reference is `&mut`.
pub fn is_mutable(world: &World, id: RefId) -> bool
    ensures { result ≡ row_is_mutable (slice_get world.now.refs id.0) }
{
    match world.refs.get(id.0 as usize) {
        Some(row) => row.mutable,
        None => false,
    }
}

/// The leaves of a type: of each reference of the world, by its number, whether the type is it or holds it by
/// value.
pub fn leaves_of(world: &World, g: &Ground) -> Row
    requires over { IsTypeOver (tables_of world.now) g.now }
    ensures { (x : ℕ) → slice_index_or result x false ≡ leaf_of (tables_of world.now) g.now x }
{
    let mut leaves = [false; MOST];
    add_type(world, g, &mut leaves);
    leaves
}

/// Whether a type is a reference of the world or holds one by value.
pub fn holds_reference(world: &World, g: &Ground) -> bool
    requires over { IsTypeOver (tables_of world.now) g.now }
    ensures { IsTrue result ↔ HoldsReference (tables_of world.now) g.now }
{
    leaves_of(world, g).contains(&true)
}

/// Adds the leaves of a type.
#[cycle(leaves)]
fn add_type(world: &World, g: &Ground, leaves: &mut [bool])
    requires over { IsTypeOver (tables_of world.now) g.now }
    requires room { length leaves.old ≡ 64 }
    ensures { AreAdded (leaf_of (tables_of world.now) g.now) leaves.old leaves.new }
{
    match g {
        Ground::Ref(id) => leaves[id.0 as usize] = true,
        Ground::Tuple(elements) => add_types(world, elements.as_slice(), leaves),
        Ground::Array(element, _) => add_type(world, element.get(), leaves),
        Ground::Wrap(wrapper, argument) => match *wrapper {
            Wrapper::PhantomData => {}
            _ => add_type(world, argument.get(), leaves),
        },
        Ground::Named(id) => add_row(world, *id, leaves),
        Ground::Prim(_) => {}
        Ground::Never => {}
        Ground::Unit => {}
        Ground::NonZero(_) => {}
    }
}

/// Adds the leaves of some types.
#[cycle(leaves)]
fn add_types(world: &World, types: &[Ground], leaves: &mut [bool])
    requires over { EachIs (IsTypeOver (tables_of world.now)) types.now }
    requires room { length leaves.old ≡ 64 }
    ensures { AreAdded (some_leaf (tables_of world.now) types.now) leaves.old leaves.new }
{
    for g in types {
        add_type(world, g, leaves);
    }
}

/// Adds the leaves of the fields of some variants.
#[cycle(leaves)]
fn add_variants(world: &World, variants: &[List<Ground>], leaves: &mut [bool])
    requires over { EachIs (EachIs (IsTypeOver (tables_of world.now))) variants.now }
    requires room { length leaves.old ≡ 64 }
    ensures { AreAdded (variant_leaf (tables_of world.now) variants.now) leaves.old leaves.new }
{
    for types in variants {
        add_types(world, types.as_slice(), leaves);
    }
}

/// Adds the leaves of a named type.
#[cycle(leaves)]
fn add_row(world: &World, id: NamedId, leaves: &mut [bool])
    requires over { IsTypeOver (tables_of world.now) (Named id) }
    requires room { length leaves.old ≡ 64 }
    ensures { AreAdded (leaf_of (tables_of world.now) (Named id)) leaves.old leaves.new }
{
    let Some(row) = world.named.get(id.0 as usize) else {
        unreachable!();
    };
    add_variants(world, row.types.as_slice(), leaves);
}
