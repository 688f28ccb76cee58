//! The walk for a value that fits.
ghost use Rattle.std.specs.Prelude.{◌+◌, ◌≤◌, IfOk};
ghost use Rattle.tm_auto.specs.Automata.{HasOneStateALayer};
ghost use Rattle.tm_judge.specs.Walks.{IsExampleAnswer};
ghost use Rattle.tm_refs.specs.Solved.{compatible_in};

use std::alloc::Global;
use std::sync::ledger::Ledger;
use tm_auto::Auto;
use tm_base::{Memory, Steps};
use tm_refs::Compat;
use tm_walk::{Exists, Found, exists_seeks_examples, walk};

/// The least source word that, fitted, is a target word; `None` where none is.
pub(crate) fn least_example<L: Ledger>(
    alloc: Global,
    src: &Auto,
    dst: &Auto,
    compat: &Compat,
    steps: &mut Steps<L>,
) -> Result<Option<Found>, Memory>
    ensures found { IfOk result (IsExampleAnswer (compatible_in compat.now) src.now dst.now) }
    ensures cost { HasOneStateALayer src.now → HasOneStateALayer dst.now
        → steps.new ≤ steps.old + (dst.now.size + 1) }
{
    exists_seeks_examples(src, dst);
    walk(alloc, &Exists, src, dst, compat, steps)
}
