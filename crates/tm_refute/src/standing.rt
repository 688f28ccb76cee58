//! Which pairs of references stand for all that lesser depths say.
ghost use Rattle.std.specs.Prelude.{◌≡◌};
ghost use Rattle.tm_refute.specs.Depths.{depth_in, stands};

use crate::depths::Depths;
use tm_base::{RefId, RefTest};

/// The test that each pair of references passes but those that fail at a depth below a limit. `None`: but
/// those that fail at any depth.
#[derive(Drop)]
pub struct Standing<'a> {
    pub depths: &'a Depths,
    pub limit: Option<u32>,
}

impl RefTest for Standing<'_> {
    ghost test = { λ standing r t. stands standing.limit (depth_in standing.depths.now r t) };

    fn holds(&self, source: RefId, target: RefId) -> bool {
        stands(self.limit, self.depths.depth(source, target))
    }
}

/// Whether what fails at a depth stands below a limit; what fails at none does.
pub fn stands(limit: Option<u32>, depth: Option<u32>) -> bool
    ensures { result ≡ stands limit depth }
{
    match (depth, limit) {
        (None, _) => true,
        (Some(_), None) => false,
        (Some(least), Some(limit)) => limit <= least,
    }
}
