ghost use Rattle.std.specs.Prelude.{◌≡◌, ◌&&◌, ◌||◌, ◌↔◌, not, IsTrue};
ghost use Rattle.tm_base.specs.Assumptions.{Includes};

/// What a question takes for granted, as `core::mem::Assume` has it.
#[derive(Clone, Copy, PartialEq, Eq, Debug)]
pub struct Assume {
    /// A reference is aligned as strictly as the target's pointee asks.
    pub alignment: bool,
    /// A reference lives as long as the target's.
    pub lifetimes: bool,
    /// What the target's private fields ask of their bytes beyond validity is met.
    pub safety: bool,
    /// The value is one that is valid for the target, where the source has such a value.
    pub validity: bool,
}

impl Assume {
    /// Nothing is taken for granted.
    pub const NOTHING: Assume = Assume {
        alignment: false,
        lifetimes: false,
        safety: false,
        validity: false,
    };

    /// Alignment alone.
    pub const ALIGNMENT: Assume = Assume {
        alignment: true,
        lifetimes: false,
        safety: false,
        validity: false,
    };

    /// Lifetimes alone.
    pub const LIFETIMES: Assume = Assume {
        alignment: false,
        lifetimes: true,
        safety: false,
        validity: false,
    };

    /// Safety alone.
    pub const SAFETY: Assume = Assume {
        alignment: false,
        lifetimes: false,
        safety: true,
        validity: false,
    };

    /// Validity alone.
    pub const VALIDITY: Assume = Assume {
        alignment: false,
        lifetimes: false,
        safety: false,
        validity: true,
    };

    /// The flags of either.
    pub fn and(self, other: Assume) -> Assume
        ensures alignment { result.alignment ≡ (self.alignment || other.alignment) }
        ensures lifetimes { result.lifetimes ≡ (self.lifetimes || other.lifetimes) }
        ensures safety { result.safety ≡ (self.safety || other.safety) }
        ensures validity { result.validity ≡ (self.validity || other.validity) }
    {
        Assume {
            alignment: self.alignment || other.alignment,
            lifetimes: self.lifetimes || other.lifetimes,
            safety: self.safety || other.safety,
            validity: self.validity || other.validity,
        }
    }

    /// The flags of the first that the second hasn't.
    pub fn but_not(self, other: Assume) -> Assume
        ensures alignment { result.alignment ≡ (self.alignment && not other.alignment) }
        ensures lifetimes { result.lifetimes ≡ (self.lifetimes && not other.lifetimes) }
        ensures safety { result.safety ≡ (self.safety && not other.safety) }
        ensures validity { result.validity ≡ (self.validity && not other.validity) }
    {
        Assume {
            alignment: self.alignment && !other.alignment,
            lifetimes: self.lifetimes && !other.lifetimes,
            safety: self.safety && !other.safety,
            validity: self.validity && !other.validity,
        }
    }

    /// Whether all flags of the other are among these.
    pub fn has(self, other: Assume) -> bool
        ensures { IsTrue result ↔ Includes self other }
    {
        (self.alignment || !other.alignment)
            && (self.lifetimes || !other.lifetimes)
            && (self.safety || !other.safety)
            && (self.validity || !other.validity)
    }
}
