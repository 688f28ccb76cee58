ghost use Rattle.std.specs.Prelude.{◌≡◌, IfOk};
ghost use Rattle.tm_ground.specs.Found.{AreRowsOfAll};
ghost use Rattle.tm_ground.specs.Rows.{HasRows};
ghost use Rattle.tm_names.specs.InForm.{IsInForm};
ghost use Rattle.tm_ground.specs.Limits.{PassesDepth};

use crate::rows::Rows;
use std::alloc::Global;
use tm_base::{Bound, Def, List, Memory, Text, World};
use tm_names::Resolved;

/// Equal definitions, in order.
fn copied_defs(alloc: Global, defs: &[Def]) -> Result<List<Def>, Memory>
    ensures { IfOk result (λ copies. copies ≡ defs.now) }
{
    let mut copies = List::new(alloc);
    for def in defs {
        copies.add(def.copy(alloc)?)?;
    }
    Ok(copies)
}

/// Equal texts, in order.
fn copied_texts(alloc: Global, texts: &[Text]) -> Result<List<Text>, Memory>
    ensures { IfOk result (λ copies. copies ≡ texts.now) }
{
    let mut copies = List::new(alloc);
    for text in texts {
        copies.add(text.copy(alloc)?)?;
    }
    Ok(copies)
}

/// Equal bounds, in order.
fn copied_bounds(alloc: Global, bounds: &[Bound]) -> Result<List<Bound>, Memory>
    ensures { IfOk result (λ copies. copies ≡ bounds.now) }
{
    let mut copies = List::new(alloc);
    for bound in bounds {
        copies.add(*bound)?;
    }
    Ok(copies)
}

/// The world of a file with the rows of all that occurs.
pub fn make_world(alloc: Global, resolved: &Resolved, rows: Rows) -> Result<World, Memory>
    requires form { IsInForm resolved.now }
    requires whole { AreRowsOfAll resolved.now rows }
    requires shallow { ¬ PassesDepth resolved.now }
    ensures { IfOk result (HasRows resolved.now rows) }
{
    let defs = copied_defs(alloc, resolved.defs.as_slice())?;
    let regions = copied_texts(alloc, resolved.regions.as_slice())?;
    let bounds = copied_bounds(alloc, resolved.bounds.as_slice())?;
    Ok(World {
        profile: resolved.profile,
        defs,
        regions,
        bounds,
        named: rows.named,
        refs: rows.refs,
        questions: rows.questions,
    })
}
