//! The row of a named type, from the rows of the named types that it holds by value.
ghost use Rattle.std.specs.Prelude.{◌≡◌, IfOk, IsTrue, slice_get};
ghost use Rattle.tm_base.specs.Tables.{Tables};
ghost use Rattle.tm_base.specs.Whole.{is_def_in_form, is_row_of};
ghost use Rattle.tm_base.specs.Worlds.{tables_of};
ghost use Rattle.tm_layout.specs.Known.{OfDefined};
ghost use Rattle.tm_layout.specs.Made.{AreRowsOf, EachIs, IsKnown, IsRowOf};
ghost use Rattle.tm_layout.specs.Making.{AreFactsFor, AreKnown, EachMatches, OfRow};

use crate::facts::{Facts, defined, places};
use crate::row::RowFacts;
use crate::written::facts_of;
use std::alloc::Global;
use tm_base::{Def, Ground, List, Memory, NamedRow, Profile, World};

/// The facts of some types, in order.
fn facts_of_fields(
    alloc: Global,
    profile: Profile,
    rows: &[Option<RowFacts>],
    types: &[Ground],
) -> Result<List<Facts>, Memory>
    ensures { IfOk result
        (λ facts. (tables : Tables) → profile ≡ tables.profile → AreRowsOf tables rows.now
        → EachIs (IsKnown tables rows.now) types.now → AreFactsFor tables types.now facts) }
{
    let mut facts = List::new(alloc);
    for g in types {
        facts.add(facts_of(profile, rows, g))?;
    }
    Ok(facts)
}

/// The facts of the fields of some variants, in order.
fn facts_of_variants(
    alloc: Global,
    profile: Profile,
    rows: &[Option<RowFacts>],
    variants: &[List<Ground>],
) -> Result<List<List<Facts>>, Memory>
    ensures { IfOk result
        (λ facts. (tables : Tables) → profile ≡ tables.profile → AreRowsOf tables rows.now
        → AreKnown tables rows.now variants.now
        → EachMatches (AreFactsFor tables) variants.now facts) }
{
    let mut facts = List::new(alloc);
    for types in variants {
        let fields = facts_of_fields(alloc, profile, rows, types.as_slice())?;
        facts.add(fields)?;
    }
    Ok(facts)
}

/// The row of a type of a definition, from the facts of its fields.
fn row_of_def(
    alloc: Global,
    profile: Profile,
    def: &Def,
    parts: &[List<Facts>],
) -> Result<RowFacts, Memory>
    requires { IsTrue (is_def_in_form profile def.now) }
    ensures { IfOk result (λ row. OfDefined profile def.now parts.now (λ t. IsRowOf t row)) }
{
    let places = places(alloc, profile, def, parts)?;
    let facts = defined(profile, def, parts);
    Ok(RowFacts { facts, places })
}

/// The row of a named type, where all that its fields rest on is made.
pub fn row_of(
    alloc: Global,
    world: &World,
    rows: &[Option<RowFacts>],
    row: &NamedRow,
) -> Result<RowFacts, Memory>
    requires in_form { IsTrue (is_row_of (slice_get world.now.defs row.now.def.0) row.now) }
    requires rows_are { AreRowsOf (tables_of world.now) rows.now }
    requires known { AreKnown (tables_of world.now) rows.now row.now.types }
    ensures { IfOk result (λ made. OfRow (tables_of world.now) row.now (λ t. IsRowOf t made)) }
{
    let parts = facts_of_variants(alloc, world.profile, rows, row.types.as_slice())?;
    match world.defs.get(row.def.0 as usize) {
        Some(def) => row_of_def(alloc, world.profile, def, parts.as_slice()),
        None => unreachable!(),
    }
}
