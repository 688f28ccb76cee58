ghost use Rattle.std.specs.Prelude.{◌≡◌, ◌==◌, ℕ, Bool};

use crate::cell::RefId;

/// A test of a source reference and a target reference: may a value of the one be taken as one of
/// the other?
pub trait RefTest {
    ghost test: { Self → ℕ → ℕ → Bool };

    /// Answers exactly the test. The ids may be any.
    fn holds(&self, source: RefId, target: RefId) -> bool
        ensures { result ≡ test self.now source.0 target.0 };
}

/// The test that each reference passes for itself alone.
#[derive(Clone, Copy, PartialEq, Eq, Debug)]
pub struct Equal;

impl RefTest for Equal {
    ghost test = { λ equal source target. source == target };

    fn holds(&self, source: RefId, target: RefId) -> bool {
        source.0 == target.0
    }
}
