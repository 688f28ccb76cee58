ghost use Rattle.std.specs.Prelude.{All, IfOk, IfSome, slice_get};
ghost use Rattle.tm_base.specs.Tables.{Tables};
ghost use Rattle.tm_base.specs.Worlds.{tables_of};
ghost use Rattle.tm_layout.specs.Made.{IsMadeFor};
ghost use Rattle.tm_region.specs.Order.{IsOrderOf};
ghost use Rattle.tm_run.specs.Courts.{IsSolved, IsTableFor};

use std::alloc::Global;
use std::sync::ledger::Ledger;
use tm_base::{Assume, Memory, Steps, World};
use tm_layout::Layouts;
use tm_refs::Compat;
use tm_region::Order;

/// Where the table for some assumptions stands, if it is made.
fn place_of(solved: &[Compat], assume: Assume) -> Option<usize>
    ensures { (tables : Tables) → All (IsSolved tables) solved.now
        → IfSome result (λ place. IsTableFor tables assume (slice_get solved.now place)) }
{
    for (place, table) in solved.iter().enumerate() {
        if table.assume() == assume {
            return Some(place);
        }
    }
    None
}

/// Where the table of a world's references for some assumptions stands, which is made if there is none yet.
pub fn place_for<L: Ledger>(
    alloc: Global,
    world: &World,
    layouts: &Layouts,
    order: &Order,
    solved: &mut Vec<Compat>,
    assume: Assume,
    steps: &mut Steps<L>,
) -> Result<usize, Memory>
    requires made { IsMadeFor (tables_of world.now) layouts.now }
    requires order_is { IsOrderOf world.now.bounds order.now }
    requires solved_are { All (IsSolved (tables_of world.now)) solved.old.items }
    ensures place { IfOk result (λ place.
        IsTableFor (tables_of world.now) assume (slice_get solved.new.items place)) }
    ensures solved_are { All (IsSolved (tables_of world.now)) solved.new.items }
{
    match place_of(solved.as_slice(), assume) {
        Some(place) => return Ok(place),
        None => {}
    }
    let table = Compat::solve(alloc, world, layouts, order, assume, steps)?;
    let place = solved.len();
    solved.push(table)?;
    Ok(place)
}
