ghost use Rattle.std.specs.Prelude.{◌≡◌};
ghost use Rattle.tm_walk.specs.Obligations.{is_within, implies};

use tm_auto::StateSet;

/// That each list of cells that leads from a state of the source to its end leads from some of the target's
/// states to its end.
#[derive(Drop)]
pub struct Obligation {
    pub state: u32,
    pub target: StateSet,
}

impl Obligation {
    /// Whether meeting this one meets the other.
    pub fn implies(&self, other: &Obligation) -> bool
        ensures { result ≡ implies self.now other.now }
    {
        self.state == other.state && is_within(&self.target, &other.target)
    }
}

/// Whether each state of a set is one of another.
fn is_within(part: &StateSet, whole: &StateSet) -> bool
    ensures { result ≡ is_within part.now whole.now }
{
    let part = part.as_slice();
    let mut found = 0;
    for state in whole.as_slice() {
        if found < part.len() && part[found] == *state {
            found += 1;
        }
    }
    found == part.len()
}
