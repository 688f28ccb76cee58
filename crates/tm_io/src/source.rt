ghost use Rattle.std.specs.Prelude.{ℕ, List, Option};
ghost use Rattle.std.specs.Io.{ReadsAtMost};
ghost use Rattle.std.specs.Io.KnownBytes.{ReadConsumes};
ghost use Rattle.tm_io.specs.Faults.{HasCause};

use crate::failed::Failed;

/// Where bytes come from.
///
/// `left` is what the source has left, where it tells that. `faults` is how often it has failed, a
/// count below 2^64 that stays at its last value.
pub trait Source {
    ghost left: { Self → Option (List ℕ) };

    ghost faults: { Self → ℕ };

    /// Takes bytes to the buffer's front, and says how many. None, where the buffer isn't empty, is
    /// the end of the input. A failure takes nothing, and comes only with a fault counted.
    fn read(&mut self, buf: &mut [u8]) -> Result<usize, Failed>
        ensures bound { ReadsAtMost result buf.new }
        ensures bytes { ReadConsumes (left self.old) (left self.new) result buf.new }
        ensures cause { HasCause (faults self.old) (faults self.new) result };
}
