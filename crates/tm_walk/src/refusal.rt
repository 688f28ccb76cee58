//! The source word that the target refuses first.
ghost use Rattle.std.specs.Prelude.{◌+◌, ◌≤◌, IfOk};
ghost use Rattle.tm_auto.specs.Automata.{HasOneStateALayer};
ghost use Rattle.tm_walk.specs.Refusals.{IsRefusalAnswer};

use crate::inclusion::is_included;
use crate::laws::for_all_seeks_refusals;
use crate::quantifier::ForAll;
use crate::walking::{Found, walk};
use std::alloc::Global;
use std::sync::ledger::Ledger;
use tm_auto::Auto;
use tm_base::{Memory, RefTest, Steps};

/// The source word that the target refuses first; `None` where each, fitted, is a target word. Where a place
/// has several states, it is asked first whether there is such a word: a walk goes through sets of them.
///
/// Each pair of sets of states that is expanded costs one step. `Memory`: there wasn't enough memory.
pub fn first_refusal<M: RefTest, L: Ledger>(
    alloc: Global,
    src: &Auto,
    dst: &Auto,
    refs: &M,
    steps: &mut Steps<L>,
) -> Result<Option<Found>, Memory>
    ensures found { IfOk result (IsRefusalAnswer (M.test refs.now) src.now dst.now) }
    ensures cost { HasOneStateALayer src.now → HasOneStateALayer dst.now
        → steps.new ≤ steps.old + (dst.now.size + 1) }
{
    let single = src.has_one_state_a_layer() && dst.has_one_state_a_layer();
    if !single && is_included(alloc, src, dst, refs)? {
        return Ok(None);
    }
    for_all_seeks_refusals(src, dst);
    walk(alloc, &ForAll, src, dst, refs, steps)
}
