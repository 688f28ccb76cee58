//! The rows of a world's named types, each made after those that it rests on.
ghost use Rattle.std.specs.Prelude.{◌≡◌, ℕ, ◌<◌, false, IfOk, None, OnOk, Some, length, slice_set};
ghost use Rattle.tm_base.specs.declared.ground.Ground.{Named};
ghost use Rattle.tm_base.specs.Worlds.{tables_of};
ghost use Rattle.tm_layout.specs.Made.{AreRowsOf, EachIs, IsKnown, is_missing, row_at};
ghost use Rattle.tm_layout.specs.Making.{AreKnown, AreRowsClosed, IsGrown, IsWrittenOut};

use crate::filling::row_of;
use crate::row::{RowFacts, row_at};
use std::alloc::Global;
use tm_base::{Ground, List, Memory, NamedId, World, Wrapper};

/// Puts a row into the table.
fn put(rows: &mut [Option<RowFacts>], id: NamedId, row: RowFacts)
    requires { id.0 < length rows.old }
    ensures { rows.new ≡ slice_set rows.old id.0 (Some row) }
{
    rows[id.0 as usize] = Some(row);
}

/// A table of so many places, none of which holds a row.
fn no_rows(alloc: Global, count: usize) -> Result<Vec<Option<RowFacts>>, Memory>
    ensures count { IfOk result (λ rows. length rows.items ≡ count) }
    ensures none { IfOk result (λ rows. (k : ℕ) → row_at rows.items k ≡ None) }
{
    let mut rows = Vec::new(alloc);
    for _ in 0..count {
        rows.push(None)?;
    }
    Ok(rows)
}

/// The rows of a world's named types.
pub fn make_rows(alloc: Global, world: &World) -> Result<Vec<Option<RowFacts>>, Memory>
    ensures rows { IfOk result (λ rows. AreRowsOf (tables_of world.now) rows.items) }
    ensures all { IfOk result (λ rows. (k : ℕ) → is_missing rows.items k ≡ false) }
{
    let mut rows = no_rows(alloc, world.named.len())?;
    for k in 0..world.named.len() as u32 {
        make_row(alloc, world, rows.as_mut_slice(), NamedId(k))?;
    }
    Ok(rows)
}

/// Makes the rows of the named types that a type is or holds by value.
#[cycle(making)]
fn make_type(
    alloc: Global,
    world: &World,
    rows: &mut [Option<RowFacts>],
    g: &Ground,
) -> Result<(), Memory>
    requires closed { AreRowsClosed (tables_of world.now) rows.old }
    requires whole { IsWrittenOut (tables_of world.now) g.now }
    ensures grown { OnOk result (IsGrown (tables_of world.now) rows.old rows.new) }
    ensures known { OnOk result (IsKnown (tables_of world.now) rows.new g.now) }
{
    match g {
        Ground::Prim(_) => Ok(()),
        Ground::Never => Ok(()),
        Ground::Unit => Ok(()),
        Ground::Tuple(elements) => make_types(alloc, world, rows, elements.as_slice()),
        Ground::Array(element, _) => make_type(alloc, world, rows, element.get()),
        Ground::Named(id) => make_row(alloc, world, rows, *id),
        Ground::NonZero(_) => Ok(()),
        Ground::Wrap(wrapper, argument) => match *wrapper {
            Wrapper::PhantomData => Ok(()),
            _ => make_type(alloc, world, rows, argument.get()),
        },
        Ground::Ref(_) => Ok(()),
    }
}

/// Makes the rows of the named types that some types are or hold by value.
#[cycle(making)]
fn make_types(
    alloc: Global,
    world: &World,
    rows: &mut [Option<RowFacts>],
    types: &[Ground],
) -> Result<(), Memory>
    requires closed { AreRowsClosed (tables_of world.now) rows.old }
    requires whole { EachIs (IsWrittenOut (tables_of world.now)) types.now }
    ensures grown { OnOk result (IsGrown (tables_of world.now) rows.old rows.new) }
    ensures known { OnOk result (EachIs (IsKnown (tables_of world.now) rows.new) types.now) }
{
    for g in types {
        make_type(alloc, world, rows, g)?;
    }
    Ok(())
}

/// Makes the rows of the named types that the fields of some variants are or hold by value.
#[cycle(making)]
fn make_variants(
    alloc: Global,
    world: &World,
    rows: &mut [Option<RowFacts>],
    variants: &[List<Ground>],
) -> Result<(), Memory>
    requires closed { AreRowsClosed (tables_of world.now) rows.old }
    requires whole { EachIs (EachIs (IsWrittenOut (tables_of world.now))) variants.now }
    ensures grown { OnOk result (IsGrown (tables_of world.now) rows.old rows.new) }
    ensures known { OnOk result (AreKnown (tables_of world.now) rows.new variants.now) }
{
    for types in variants {
        make_types(alloc, world, rows, types.as_slice())?;
    }
    Ok(())
}

/// Makes the row of a named type, after those of the named types that it holds by value.
#[cycle(making)]
fn make_row(
    alloc: Global,
    world: &World,
    rows: &mut [Option<RowFacts>],
    id: NamedId,
) -> Result<(), Memory>
    requires closed { AreRowsClosed (tables_of world.now) rows.old }
    requires whole { IsWrittenOut (tables_of world.now) (Named id) }
    ensures grown { OnOk result (IsGrown (tables_of world.now) rows.old rows.new) }
    ensures known { OnOk result (IsKnown (tables_of world.now) rows.new (Named id)) }
{
    if row_at(rows, id).is_some() {
        return Ok(());
    }
    let Some(row) = world.named.get(id.0 as usize) else {
        unreachable!();
    };
    make_variants(alloc, world, rows, row.types.as_slice())?;
    let made = row_of(alloc, world, rows, row)?;
    put(rows, id, made);
    Ok(())
}
