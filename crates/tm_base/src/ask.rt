ghost use Rattle.std.specs.Prelude.{◌≡◌, ◌↔◌, IsTrue, IfOk};
ghost use Rattle.tm_base.specs.Asked.{HoldsOf};
ghost use Rattle.tm_base.specs.Tables.{Tables};
ghost use Rattle.tm_base.specs.Worlds.{IsTypeOver};

use crate::assume::Assume;
use crate::ground::Ground;
use crate::memory::Memory;
use std::alloc::Global;

/// A question: may a value of `src` be taken as one of `dst`, where so much is assumed?
#[derive(Debug, Drop)]
pub struct Ask {
    /// The source: the type whose value is there.
    pub src: Ground,
    /// The target: the type as which it is taken.
    pub dst: Ground,
    /// What the question takes for granted.
    pub assume: Assume,
}

/// Who can say of each question over a world whether the answer to it is yes.
///
/// The world is one that proofs alone see: it is told by its tables, and no call changes it.
pub trait AskYes {
    ghost told: { Self → Tables };

    /// Whether both types have a guaranteed layout, with all that they reach, and the cast holds.
    ///
    /// `Memory`: there wasn't enough memory to find out.
    fn yes(&mut self, alloc: Global, ask: &Ask) -> Result<bool, Memory>
        requires source { IsTypeOver (told self.old) ask.now.src }
        requires target { IsTypeOver (told self.old) ask.now.dst }
        ensures answer { IfOk result (λ b. IsTrue b ↔ HoldsOf (told self.old) ask.now) }
        ensures world { told self.new ≡ told self.old };
}
