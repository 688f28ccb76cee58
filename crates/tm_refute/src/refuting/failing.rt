//! The pairs of references that fail, in the order of entries.
ghost use Rattle.std.specs.Prelude.{IfOk};
ghost use Rattle.tm_base.specs.Worlds.{tables_of};
ghost use Rattle.tm_refute.specs.Failing.{AreFailing};

use std::alloc::Global;
use std::cmp::Reverse;
use tm_base::{Memory, RefId, World};
use tm_refs::Compat;

/// Two references, and the least depth at which they fail.
#[derive(Clone, Copy, Debug, Drop)]
pub struct Failing {
    /// The least number of levels of pointees that speak against them; 0 where the two by
    /// themselves do.
    pub depth: u32,
    /// The source reference.
    pub source: RefId,
    /// The target reference.
    pub target: RefId,
}

/// The pairs of a world's references that fail: by falling depth, then by source, then by target.
pub fn pairs_in_order(alloc: Global, world: &World, compat: &Compat) -> Result<Vec<Failing>, Memory>
    ensures { IfOk result (λ pairs. AreFailing (tables_of world.now) compat.now pairs.items) }
{
    let count = world.refs.len() as u32;
    let mut pairs = Vec::new(alloc);
    for source in 0..count {
        for target in 0..count {
            let (source, target) = (RefId(source), RefId(target));
            if let Some(depth) = compat.depth(source, target) {
                pairs.push(Failing {
                    depth,
                    source,
                    target,
                })?;
            }
        }
    }
    // The sort is stable: pairs of one depth stay by source and target.
    pairs.sort_by_key(|pair| Reverse(pair.depth))?;
    Ok(pairs)
}
