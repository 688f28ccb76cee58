ghost use Rattle.std.specs.Prelude.{ℕ, ◌<◌, List, Option, IfOk, length};
ghost use Rattle.std.specs.Io.{WritesAtMost};
ghost use Rattle.std.specs.Io.KnownBytes.{WriteAppends};
ghost use Rattle.tm_io.specs.Faults.{HasCause};

use crate::failed::Failed;

/// Where bytes go.
///
/// `written` is what was written, where the sink tells that. `faults` is how often it has failed, a
/// count below 2^64 that stays at its last value.
pub trait Sink {
    ghost written: { Self → Option (List ℕ) };

    ghost faults: { Self → ℕ };

    /// Adds bytes from the piece's front, and says how many: at least one, where the piece isn't
    /// empty. A failure adds nothing, and comes only with a fault counted.
    fn write(&mut self, piece: &[u8]) -> Result<usize, Failed>
        ensures bound { WritesAtMost result piece.now }
        ensures some { 0 < length piece.now → IfOk result (λ count. 0 < count) }
        ensures bytes { WriteAppends (written self.old) (written self.new) result piece.now }
        ensures cause { HasCause (faults self.old) (faults self.new) result };
}
