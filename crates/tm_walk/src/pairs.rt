ghost use Rattle.std.specs.Prelude.{◌≡◌, ◌<◌, [], Some, IfOk, OnOk, length, map, slice_get};
ghost use Rattle.tm_walk.specs.Layers.{Entry, IsOffered};
ghost use Rattle.tm_walk.specs.Numbers.{reached_entry, way_of};

use crate::sets::Sets;
use crate::way::{Pair, Reached, Way};
use indexmap::IndexMap;
use std::alloc::Global;
use std::marker::Model;
use tm_auto::StateSet;
use tm_base::Memory;

/// Pairs of a source's and a target's set, each once, in the order in which they were reached, with the
/// way by which each first was. Contracts see the list of the pairs.
#[derive(Drop)]
pub struct Pairs {
    sources: Sets,
    targets: Sets,
    pairs: IndexMap<Pair, Way>,
}

impl Model for Pairs {
    ghost use Rattle.std.specs.Prelude.{List};
    ghost use Rattle.tm_walk.specs.Layers.{Entry};
    ghost use Rattle.tm_walk.specs.Numbers.{entries_of, AreWithin};

    ghost Value = { List Entry };

    ghost view = { λ pairs. entries_of pairs.sources pairs.targets pairs.pairs.entries };

    ghost invariant = { λ pairs. AreWithin pairs.sources pairs.targets pairs.pairs.entries };
}

impl Pairs {
    /// No pairs. It takes no memory.
    pub fn new(alloc: Global) -> Pairs
        ensures { result ≡ [] }
    {
        Pairs {
            sources: Sets::new(alloc),
            targets: Sets::new(alloc),
            pairs: IndexMap::new(alloc),
        }
    }

    /// How many pairs there are.
    pub fn len(&self) -> usize
        ensures { result ≡ length self.now }
    {
        self.pairs.len()
    }

    /// The sets of the pair at a place.
    pub fn sets(&self, place: usize) -> (&StateSet, &StateSet)
        requires { place < length self.now }
        ensures { ((e : Entry) × (slice_get self.now place ≡ Some e)
            × (result.0.now ≡ e.src) × (result.1.now ≡ e.dst)) }
    {
        let (pair, _) = self.pairs.get_index(place).unwrap();
        (self.sources.get(pair.source), self.targets.get(pair.target))
    }

    /// Puts a pair last, unless it is there.
    pub fn offer(&mut self, alloc: Global, pair: Reached) -> Result<(), Memory>
        ensures { OnOk result (IsOffered (reached_entry pair) self.old self.new) }
    {
        let Reached { src, dst, way } = pair;
        let source = self.sources.number(alloc, src)?;
        let target = self.targets.number(alloc, dst)?;
        let pair = Pair { source, target };
        if self.pairs.contains_key(&pair) {
            return Ok(());
        }
        self.pairs.insert(pair, way)?;
        Ok(())
    }

    /// The ways by which the pairs were reached, in order.
    pub fn ways(&self) -> &[Way]
        ensures { result.now ≡ map way_of self.now }
    {
        self.pairs.values().as_slice()
    }
}
