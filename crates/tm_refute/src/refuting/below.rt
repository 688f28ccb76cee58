//! Which references of a world go together as far as lesser depths say.
ghost use Rattle.tm_refs.specs.Solved.{depth_in};
ghost use Rattle.tm_refute.specs.Depths.{stands};

use crate::standing::stands;
use tm_base::{RefId, RefTest};
use tm_refs::Compat;

/// The test that each pair of references passes but those that fail first at a depth below a limit. `None`: but
/// those that fail at any depth.
#[derive(Drop)]
pub struct Below<'a> {
    pub compat: &'a Compat,
    pub limit: Option<u32>,
}

impl RefTest for Below<'_> {
    ghost test = { λ below r t. stands below.limit (depth_in below.compat.now r t) };

    fn holds(&self, source: RefId, target: RefId) -> bool {
        stands(self.limit, self.compat.depth(source, target))
    }
}
