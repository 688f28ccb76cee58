ghost use Rattle.std.specs.Prelude.{◌≡◌, ◌<◌, [], ◌∷◌, Some, IfOk, OnOk, length, map, slice_get};
ghost use Rattle.tm_walk.specs.Layers.{Entry, IsOffered};
ghost use Rattle.tm_walk.specs.Numbers.{reached_entry, way_of};

use crate::pairs::Pairs;
use crate::way::{Reached, Ways};
use std::alloc::Global;
use std::marker::Model;
use tm_auto::StateSet;
use tm_base::Memory;

/// Pairs of a source's and a target's set, each once, in the order in which they were reached, with the
/// way by which each first was. Contracts see the list of the pairs.
///
/// Most layers have one pair: as long as it is the only one, nothing is looked up, and no memory is
/// taken.
#[derive(Drop)]
pub struct Layer {
    only: Option<Reached>,
    several: Option<Box<Pairs>>,
}

impl Model for Layer {
    ghost use Rattle.std.specs.Prelude.{List};
    ghost use Rattle.tm_walk.specs.Layers.{Entry};
    ghost use Rattle.tm_walk.specs.Numbers.{only_or, pairs_in, IsAlone};

    ghost Value = { List Entry };

    ghost view = { λ layer. only_or layer.only (pairs_in layer.several) };

    ghost invariant = { λ layer. IsAlone layer.only layer.several };
}

impl Layer {
    /// No pairs. It takes no memory.
    pub fn new() -> Layer
        ensures { result ≡ [] }
    {
        Layer {
            only: None,
            several: None,
        }
    }

    /// How many pairs there are.
    pub fn len(&self) -> usize
        ensures { result ≡ length self.now }
    {
        match (&self.only, &self.several) {
            (Some(_), _) => 1,
            (None, Some(several)) => several.len(),
            (None, None) => 0,
        }
    }

    /// The sets of the pair at a place.
    pub fn sets(&self, place: usize) -> (&StateSet, &StateSet)
        requires { place < length self.now }
        ensures { ((e : Entry) × (slice_get self.now place ≡ Some e)
            × (result.0.now ≡ e.src) × (result.1.now ≡ e.dst)) }
    {
        match (&self.only, &self.several) {
            (Some(only), _) => (&only.src, &only.dst),
            (None, Some(several)) => several.sets(place),
            (None, None) => unreachable!(),
        }
    }

    /// Puts a pair last, unless it is there.
    pub fn offer(&mut self, alloc: Global, pair: Reached) -> Result<(), Memory>
        ensures { OnOk result (IsOffered (reached_entry pair) self.old self.new) }
    {
        if let Some(several) = &mut self.several {
            return several.offer(alloc, pair);
        }
        let Some(only) = self.only.take() else {
            self.only = Some(pair);
            return Ok(());
        };
        if only.has_sets_of(&pair) {
            self.only = Some(only);
            return Ok(());
        }
        self.several = Some(both(alloc, only, pair)?);
        Ok(())
    }

    /// The ways by which the pairs were reached, in order.
    pub fn ways(&self, alloc: Global) -> Result<Ways, Memory>
        ensures { IfOk result (λ ways. ways.items ≡ map way_of self.now) }
    {
        match (&self.only, &self.several) {
            (Some(only), _) => Ok(Ways::from_slice(alloc, &[only.way])?),
            (None, Some(several)) => Ok(Ways::from_slice(alloc, several.ways())?),
            (None, None) => Ok(Ways::new(alloc)),
        }
    }
}

/// A pair, and one that is put behind it unless it has the same sets.
fn both(alloc: Global, first: Reached, second: Reached) -> Result<Box<Pairs>, Memory>
    ensures { IfOk result (λ several.
        IsOffered (reached_entry second) (reached_entry first ∷ []) several.value) }
{
    let mut several = Pairs::new(alloc);
    several.offer(alloc, first)?;
    several.offer(alloc, second)?;
    Ok(Box::new(alloc, several)?)
}
