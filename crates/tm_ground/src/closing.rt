ghost use Rattle.std.specs.Prelude.{IfOk, IfErr, OnOk};
ghost use Rattle.tm_ground.specs.Closing.{AreFound};
ghost use Rattle.tm_ground.specs.Collecting.{IsEmpty};
ghost use Rattle.tm_ground.specs.Limits.{HasCause};
ghost use Rattle.tm_ground.specs.Sets.{closed_types};

use crate::collector::Collector;
use crate::fault::GroundErr;
use crate::found::Found;
use crate::stop::Stop;
use std::alloc::Global;
use tm_names::Resolved;

/// Finds the types that occur, where nothing was found before and no limit on them is passed.
fn find_within_limits(
    alloc: Global,
    resolved: &Resolved,
    collector: &mut Collector,
) -> Result<(), GroundErr>
    requires { IsEmpty collector.old }
    ensures whole { OnOk result (AreFound resolved.now
        (closed_types collector.new.found.named) (closed_types collector.new.found.refs)) }
    ensures cause { IfErr result (HasCause resolved.now) }
{
    match collector.close(alloc, resolved) {
        Ok(()) => {}
        Err(Stop::Full) => return Err(GroundErr::TooManyTypes),
        Err(Stop::Memory) => return Err(GroundErr::Memory),
    }
    if collector.big {
        return Err(GroundErr::TooManyNodes);
    }
    if collector.many_refs {
        return Err(GroundErr::TooManyRefs);
    }
    Ok(())
}

/// The types that occur, in the order in which they are found.
///
/// `TooManyTypes`, `TooManyNodes`, `TooManyRefs`: as in [`GroundErr`]. `Memory`: there wasn't enough memory.
pub fn occurring(alloc: Global, resolved: &Resolved) -> Result<Found, GroundErr>
    ensures whole { IfOk result (λ found.
        AreFound resolved.now (closed_types found.named) (closed_types found.refs)) }
    ensures cause { IfErr result (HasCause resolved.now) }
{
    let mut collector = Collector::new(alloc);
    find_within_limits(alloc, resolved, &mut collector)?;
    Ok(collector.found)
}
