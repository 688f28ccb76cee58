ghost use Rattle.std.specs.Prelude.{◌+◌, ◌≤◌, IfOk, IfNone, IfSome};
ghost use Rattle.tm_base.specs.Answers.{AreJudged, IsAnswer};
ghost use Rattle.tm_base.specs.Layout.{size_of};
ghost use Rattle.tm_base.specs.Parts.{HasNoAlternatives};
ghost use Rattle.tm_base.specs.Rules.{source, target};
ghost use Rattle.tm_base.specs.Worlds.{IsTypeOver, tables_of};
ghost use Rattle.tm_layout.specs.Made.{IsMadeFor};
ghost use Rattle.tm_refs.specs.Solved.{IsSolvedFor};

use crate::values::judge_values;
use std::alloc::Global;
use std::sync::ledger::Ledger;
use tm_base::{Answer, Ask, Memory, Side, Steps, World};
use tm_layout::{Layouts, first_refused};
use tm_refs::Compat;
use tm_region::Order;

/// The answer to a question about types of the world: its refusal, or else what `judge_values` answers, which also
/// tells of the table and the steps. `Memory`: there wasn't enough memory.
pub fn judge<L: Ledger>(
    alloc: Global,
    world: &World,
    layouts: &Layouts,
    _order: &Order,
    compat: &Compat,
    ask: &Ask,
    steps: &mut Steps<L>,
) -> Result<Answer, Memory>
    requires made { IsMadeFor (tables_of world.now) layouts.now }
    requires solved { IsSolvedFor (tables_of world.now) ask.now.assume compat.now }
    requires source { IsTypeOver (tables_of world.now) ask.now.src }
    requires target { IsTypeOver (tables_of world.now) ask.now.dst }
    ensures answer { IfOk result (IsAnswer (tables_of world.now) ask.now) }
    ensures cost { HasNoAlternatives (source (tables_of world.now) ask.now)
        → HasNoAlternatives (target (tables_of world.now) ask.now)
        → steps.new ≤ steps.old + (size_of (target (tables_of world.now) ask.now) + 1) }
{
    match refusal(alloc, world, layouts, ask)? {
        Some(answer) => Ok(answer),
        None => judge_values(alloc, world, layouts, compat, ask, steps),
    }
}

/// The answer to a question one of whose types isn't judged, for which no table is needed: of the source, or else of
/// the target, it names the type at fault with the least text. `None` where both are judged. `Memory`: there wasn't
/// enough memory.
pub fn refusal(
    alloc: Global,
    world: &World,
    layouts: &Layouts,
    ask: &Ask,
) -> Result<Option<Answer>, Memory>
    requires made { IsMadeFor (tables_of world.now) layouts.now }
    requires source { IsTypeOver (tables_of world.now) ask.now.src }
    requires target { IsTypeOver (tables_of world.now) ask.now.dst }
    ensures some { IfOk result (λ found. IfSome found (IsAnswer (tables_of world.now) ask.now)) }
    ensures refused { IfOk result (λ found.
        IfSome found (λ answer. ¬ AreJudged (tables_of world.now) ask.now)) }
    ensures none { IfOk result (λ found. IfNone found (AreJudged (tables_of world.now) ask.now)) }
{
    match first_refused(alloc, world, layouts, &ask.src)? {
        Some((why, g)) => return Ok(Some(Answer::Refused(Side::Source, why, g))),
        None => {}
    }
    match first_refused(alloc, world, layouts, &ask.dst)? {
        Some((why, g)) => Ok(Some(Answer::Refused(Side::Target, why, g))),
        None => Ok(None),
    }
}
