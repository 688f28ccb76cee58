ghost use Rattle.std.specs.Prelude.{IfOk, IfErr};
ghost use Rattle.tm_ground.specs.Belongs.{BelongsToFile};
ghost use Rattle.tm_ground.specs.Found.{AreRowsIn, IsAllOf};
ghost use Rattle.tm_ground.specs.Limits.{HasCause, IsWithinLimits, PassesDepth};
ghost use Rattle.tm_names.specs.ApartNames.{HasApartNames};
ghost use Rattle.tm_names.specs.InForm.{IsInForm};

use crate::closing::occurring;
use crate::depth::is_too_deep;
use crate::fault::GroundErr;
use crate::found::Found;
use crate::ordering::in_order;
use crate::rows::{Rows, rows_of};
use crate::worlds::make_world;
use std::alloc::Global;
use tm_base::{Memory, World};
use tm_names::Resolved;

/// The rows of all that occurs, where no type of it is deeper than a type may be.
fn shallow_rows(alloc: Global, resolved: &Resolved, found: &Found) -> Result<Rows, GroundErr>
    requires { IsAllOf found.now resolved.now }
    ensures rows { IfOk result (AreRowsIn found.now resolved.now) }
    ensures shallow { IfOk result (λ _. ¬ PassesDepth resolved.now) }
    ensures cause { IfErr result (HasCause resolved.now) }
{
    let rows = rows_of(alloc, resolved, found)?;
    if is_too_deep(alloc, &rows)? {
        return Err(GroundErr::TooDeep);
    }
    Ok(rows)
}

/// The world of what is found, with the named types and the references in byte order of their canonical texts.
fn ordered_world(
    alloc: Global,
    resolved: &Resolved,
    found: &Found,
    rows: Rows,
) -> Result<World, Memory>
    requires form { IsInForm resolved.now }
    requires names { HasApartNames resolved.now }
    requires whole { IsAllOf found.now resolved.now }
    requires rows { AreRowsIn found.now resolved.now rows }
    requires shallow { ¬ PassesDepth resolved.now }
    ensures { IfOk result (BelongsToFile resolved.now) }
{
    let ordered = in_order(alloc, resolved, found, rows)?;
    let rows = rows_of(alloc, resolved, &ordered)?;
    make_world(alloc, resolved, rows)
}

/// The world of a file and a profile: the definitions, the types that its questions lead to with their
/// numbers, and the questions. The number of a named type, and that of a reference, is its place in the byte
/// order of the canonical texts.
///
/// `TooManyTypes`: more than 1,024 named types of at most 256 nodes occur. `TooManyNodes`: not so, and some type
/// that occurs has more than 256 nodes. `TooManyRefs`: neither, and more than 64 reference types occur.
/// `TooDeep`: none of these, and some type that occurs is more than 64 types deep by value. `Memory`: there
/// wasn't enough memory.
pub fn ground(alloc: Global, resolved: &Resolved) -> Result<World, GroundErr>
    requires form { IsInForm resolved.now }
    requires names { HasApartNames resolved.now }
    ensures world { IfOk result (λ world. BelongsToFile resolved.now world) }
    ensures fits { IfOk result (λ _. IsWithinLimits resolved.now) }
    ensures cause { IfErr result (HasCause resolved.now) }
{
    let found = occurring(alloc, resolved)?;
    let rows = shallow_rows(alloc, resolved, &found)?;
    match ordered_world(alloc, resolved, &found, rows) {
        Ok(world) => Ok(world),
        Err(_) => Err(GroundErr::Memory),
    }
}
