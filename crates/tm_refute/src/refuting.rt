//! The refutation of a question.
ghost use Rattle.std.specs.Prelude.{◌≡◌, ◌<◌, ◌≤◌, IfOk, IfErr, IfNone, IfSome};
ghost use Rattle.tm_base.specs.Worlds.{IsTypeOver, tables_of};
ghost use Rattle.tm_layout.specs.Made.{IsMadeFor};
ghost use Rattle.tm_refs.specs.Solved.{IsSolvedFor};
ghost use Rattle.tm_region.specs.Order.{IsOrderOf};
ghost use Rattle.tm_refute.specs.Chosen.{IsRefutable, IsRefutationOf};
ghost use Rattle.tm_refute.specs.TextForms.{cells_of, most_cells_together};
ghost use Rattle.tm_refute.specs.declared.refutation.Refutation.{Refutation};
ghost use Rattle.tm_refute.specs.declared.stop.RefuteErr.TheVariants.{TooLong};

mod asked;
mod asking;
mod below;
mod entries;
mod failing;
mod maker;

use crate::judged::is_judged;
use crate::refutation::Refutation;
use crate::refuting::asked::Asked;
use crate::refuting::entries::Made;
use crate::refuting::maker::Maker;
use crate::stop::RefuteErr;
use std::alloc::Global;
use tm_base::{Ask, List, World};
use tm_layout::Layouts;
use tm_refs::Compat;
use tm_region::Order;

/// The refutation of a question about types of the world; `None` exactly where it has none: `validity` is
/// assumed, one of its types isn't judged, or its answer is yes. The table is the one for what the question
/// assumes.
///
/// At the top stands the value of the source that the target refuses first, and of those the least; where the
/// target has no value, the least of the source, at 0. Each reference in the cells shown that fails with a leaf
/// of the target gets an entry at the least depth at which it does, with the first local rule that is broken, or
/// a piece that is chosen as the top is, which asks for further entries in turn.
///
/// `TooLong`: its words have more than 16,777,216 cells together. `Memory`: there wasn't enough memory.
pub fn refute(
    alloc: Global,
    world: &World,
    layouts: &Layouts,
    order: &Order,
    compat: &Compat,
    ask: &Ask,
) -> Result<Option<Refutation>, RefuteErr>
    requires made { IsMadeFor (tables_of world.now) layouts.now }
    requires order { IsOrderOf world.now.bounds order.now }
    requires solved { IsSolvedFor (tables_of world.now) ask.now.assume compat.now }
    requires source { IsTypeOver (tables_of world.now) ask.now.src }
    requires target { IsTypeOver (tables_of world.now) ask.now.dst }
    ensures some { IfOk result
        (λ found. IfSome found (IsRefutationOf (tables_of world.now) ask.now)) }
    ensures short { IfOk result (λ found. IfSome found (λ x. cells_of x ≤ most_cells_together)) }
    ensures none { IfOk result
        (λ found. IfNone found (¬ IsRefutable (tables_of world.now) ask.now)) }
    ensures long { IfErr result (λ error. error ≡ TooLong
        → (x : Refutation) × IsRefutationOf (tables_of world.now) ask.now x
        × (most_cells_together < cells_of x)) }
{
    if ask.assume.validity
        || !is_judged(alloc, world, layouts, &ask.src)?
        || !is_judged(alloc, world, layouts, &ask.dst)?
    {
        return Ok(None);
    }
    let maker = Maker {
        alloc,
        world,
        layouts,
        compat,
        assume: ask.assume,
    };
    let Some(top) = maker.piece(None, &ask.src, &ask.dst)? else {
        return Ok(None);
    };
    let mut asked = Asked::new(alloc);
    maker.ask(None, &ask.dst, &top, &mut asked)?;
    let mut made = Made {
        entries: List::new(alloc),
        cells: top.word.len(),
    };
    maker.entries(ask, &top, &mut asked, &mut made)?;
    if made.is_past() {
        return Err(RefuteErr::TooLong);
    }
    Ok(Some(Refutation {
        top,
        entries: made.entries,
    }))
}
