ghost use Rattle.std.specs.Prelude.{◌≡◌};
ghost use Rattle.tm_refs.specs.Standings.{depth_of, rule_of};

use tm_base::LocalRule;

/// What is known of a source reference and a target reference.
#[derive(Clone, Copy, PartialEq, Eq, Debug)]
pub enum Standing {
    /// No level of pointees that was looked at speaks against them.
    Holds,
    /// One of the pointees isn't judged, or there is no such reference.
    Unjudged,
    /// Both pointees are judged, and this is the first local rule that the two break.
    Breaks(LocalRule),
    /// They break no local rule, and so many levels of pointees, at least 1, are the least that speak
    /// against them.
    Fails(u32),
}

impl Standing {
    /// The least number of levels of pointees that speak against them; `None` where none does.
    pub fn depth(self) -> Option<u32>
        ensures { result ≡ depth_of self }
    {
        match self {
            Standing::Holds => None,
            Standing::Unjudged | Standing::Breaks(_) => Some(0),
            Standing::Fails(depth) => Some(depth),
        }
    }

    /// The first local rule that they break, where both pointees are judged.
    pub fn rule(self) -> Option<LocalRule>
        ensures { result ≡ rule_of self }
    {
        match self {
            Standing::Breaks(rule) => Some(rule),
            Standing::Holds | Standing::Unjudged | Standing::Fails(_) => None,
        }
    }
}
