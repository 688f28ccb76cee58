ghost use Rattle.std.specs.Prelude.{◌≡◌, ◌&&◌, Bool, false, not, IsTrue};

/// What is asked of the source's words. A walk asks it of each pair of sets of states: whether the
/// target's is live, that is has a state, and whether the target ends there.
pub trait Quantifier {
    // Whether a pair is what is sought, for a live one or not, at the target's end or not.
    ghost stop: { Self → Bool → Bool → Bool };

    // Whether nothing behind a pair is looked at.
    ghost skip: { Self → Bool → Bool };

    /// Answers exactly whether a pair is what is sought.
    fn stops(&self, live: bool, at_end: bool) -> bool
        ensures { result ≡ stop self.now live at_end };

    /// Answers exactly whether a pair is passed over, with all that follows from it.
    fn skips(&self, live: bool) -> bool
        ensures { result ≡ skip self.now live };

    // No pair is both.
    ghost apart: { (q : Self) (live at_end : Bool)
        → IsTrue (stop q live at_end) → ¬ IsTrue (skip q live) };
}

/// Seeks a source word that the target refuses: stops where the target's set is empty, and skips nothing.
#[derive(Clone, Copy, PartialEq, Eq, Debug)]
pub struct ForAll;

impl Quantifier for ForAll {
    ghost use Rattle.std.specs.Prelude.{Bool};
    ghost use Rattle.tm_walk.specs.Meanings.{for_all_stops, for_all_skips};

    ghost stop = { λ q. for_all_stops };

    ghost skip = { λ q. for_all_skips };

    fn stops(&self, live: bool, _at_end: bool) -> bool {
        !live
    }

    fn skips(&self, _live: bool) -> bool {
        false
    }

    ghost apart = { λ q live at_end stops skips. Prim.cc };
}

/// Seeks a source word that the target accepts: stops at the target's end where its set has a state, and
/// skips the pairs whose target set is empty.
#[derive(Clone, Copy, PartialEq, Eq, Debug)]
pub struct Exists;

impl Quantifier for Exists {
    ghost use Rattle.std.specs.Prelude.{Bool, true, false};
    ghost use Rattle.tm_walk.specs.Meanings.{exists_stops, exists_skips};

    ghost stop = { λ q. exists_stops };

    ghost skip = { λ q. exists_skips };

    fn stops(&self, live: bool, at_end: bool) -> bool {
        live && at_end
    }

    fn skips(&self, live: bool) -> bool {
        !live
    }

    ghost apart = { λ q. elim [ true ↦ λ at_end stops skips. Prim.cc | false ↦ λ at_end stops skips. Prim.cc ] };
}
