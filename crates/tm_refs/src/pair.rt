ghost use Rattle.std.specs.Prelude.{◌≡◌, IfOk};
ghost use Rattle.tm_refs.specs.Looks.{pairs_below};

use std::alloc::Global;
use tm_base::{Memory, RefId};

/// A source reference and a target reference.
#[derive(Clone, Copy, PartialEq, Eq, Debug)]
pub struct Pair {
    pub source: RefId,
    pub target: RefId,
}

/// All pairs of so many references.
pub fn pairs_below(alloc: Global, count: u32) -> Result<Vec<Pair>, Memory>
    ensures { IfOk result (λ pairs. pairs.items ≡ pairs_below count) }
{
    let mut pairs = Vec::new(alloc);
    for source in 0..count {
        for target in 0..count {
            pairs.push(Pair {
                source: RefId(source),
                target: RefId(target),
            })?;
        }
    }
    Ok(pairs)
}
