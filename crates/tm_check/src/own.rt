//! References of a target as places that no source fills yet.
ghost use Rattle.std.specs.Prelude.{◌≡◌};
ghost use Rattle.tm_base.specs.Cells.{or_own};

use tm_base::{RefId, RefTest};

/// The test under which a reference of the target may also hold itself, as no reference of a source does.
#[derive(Drop)]
pub struct OrOwn<'a, M> {
    pub refs: &'a M,
}

impl<M: RefTest> RefTest for OrOwn<'_, M> {
    ghost test = { λ either. or_own (M.test either.refs.now) };

    fn holds(&self, source: RefId, target: RefId) -> bool {
        self.refs.holds(source, target)
    }
}
