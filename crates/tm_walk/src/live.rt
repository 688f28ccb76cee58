ghost use Rattle.std.specs.Prelude.{◌≡◌};
ghost use Rattle.tm_walk.specs.Layers.{is_live};

use tm_auto::StateSet;

/// Whether the set has a state.
pub fn is_live(set: &StateSet) -> bool
    ensures { result ≡ is_live set.now }
{
    !set.as_slice().is_empty()
}
