ghost use Rattle.std.specs.Prelude.{◌↔◌, IsTrue, IfOk};
ghost use Rattle.tm_base.specs.Worlds.{IsTypeOver, tables_of};
ghost use Rattle.tm_layout.specs.Made.{IsMadeFor};
ghost use Rattle.tm_refute.specs.Refutes.{Refutes};
ghost use Rattle.tm_region.specs.Order.{IsOrderOf};

mod pieces;
mod verifier;

use crate::depths::Depths;
use crate::judged::{Judged, is_judged};
use crate::refutation::Refutation;
use crate::verifying::verifier::Verifier;
use std::alloc::Global;
use tm_base::{Ask, Memory, World};
use tm_layout::Layouts;
use tm_region::Order;

/// Whether a refutation of a question about types of the world holds. What it names may be anything.
///
/// The question lacks `validity` and both its types are judged. The word of the top breaks them where the
/// pairs of all entries fail. Each entry names references of the world with judged pointees, and fails at
/// its depth: by the first local rule that is broken, or by a word that rests on lesser depths alone.
///
/// It takes time and memory in proportion to the words. `Memory`: there wasn't enough memory.
pub fn verify(
    alloc: Global,
    world: &World,
    layouts: &Layouts,
    order: &Order,
    ask: &Ask,
    x: &Refutation,
) -> Result<bool, Memory>
    requires made { IsMadeFor (tables_of world.now) layouts.now }
    requires order { IsOrderOf world.now.bounds order.now }
    requires source { IsTypeOver (tables_of world.now) ask.now.src }
    requires target { IsTypeOver (tables_of world.now) ask.now.dst }
    ensures exact { IfOk result (λ holds.
        IsTrue holds ↔ Refutes (tables_of world.now) ask.now x.now) }
{
    if ask.assume.validity
        || !is_judged(alloc, world, layouts, &ask.src)?
        || !is_judged(alloc, world, layouts, &ask.dst)?
    {
        return Ok(false);
    }
    let entries = x.entries.as_slice();
    let verifier = Verifier {
        alloc,
        world,
        layouts,
        order,
        assume: ask.assume,
        entries,
        judged: Judged::new(alloc, world, layouts)?,
        depths: Depths::of_entries(alloc, entries)?,
    };
    if !verifier.breaks(None, &ask.src, &ask.dst, &x.top)? {
        return Ok(false);
    }
    verifier.all_hold()
}
