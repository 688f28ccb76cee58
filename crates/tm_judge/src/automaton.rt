//! Where the words of an automaton begin.
ghost use Rattle.std.specs.Prelude.{◌↔◌, IfOk, IsTrue};
ghost use Rattle.tm_judge.specs.Ready.{HasStart};

use std::alloc::Global;
use tm_auto::Auto;
use tm_base::Memory;

/// Whether words begin in the automaton.
pub(crate) fn has_start(alloc: Global, auto: &Auto) -> Result<bool, Memory>
    ensures { IfOk result (λ has. IsTrue has ↔ HasStart auto.now) }
{
    let starts = auto.start(alloc)?;
    Ok(!starts.as_slice().is_empty())
}
