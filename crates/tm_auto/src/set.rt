ghost use Rattle.std.specs.Prelude.{◌≡◌, [], ◌∷◌, ◌≤◌, IfOk, OnOk, OnErr, IfSome, IfNone, insert, length};
ghost use Rattle.std.specs.List.Sorted.{IsStrictlyIncreasing};
ghost use Rattle.tm_auto.specs.Sets.{with_state};

use smallvec::SmallVec;
use std::alloc::Global;
use std::marker::Model;
use tm_base::Memory;

/// A set of states. Contracts see it as the list of their numbers, rising, each once.
#[derive(Drop)]
pub struct StateSet {
    states: SmallVec<u32, 4>,
}

impl Model for StateSet {
    ghost use Rattle.std.specs.Prelude.{List, ℕ};
    ghost use Rattle.std.specs.List.Sorted.{IsStrictlyIncreasing};

    ghost Value = { List ℕ };

    ghost view = { λ set. set.states.items };

    ghost invariant = { λ set. IsStrictlyIncreasing set.states.items };
}

impl StateSet {
    /// The states, in rising order and each once.
    pub fn as_slice(&self) -> &[u32]
        ensures states { result.now ≡ self.now }
        ensures rising { IsStrictlyIncreasing result.now }
    {
        self.states.as_slice()
    }

    /// The empty set. It takes no memory.
    pub fn new(alloc: Global) -> StateSet
        ensures { result ≡ [] }
    {
        StateSet {
            states: SmallVec::new(alloc),
        }
    }

    /// The set of one state. It takes no memory.
    pub(crate) fn of_one(alloc: Global, state: u32) -> StateSet
        ensures { result ≡ state ∷ [] }
    {
        let mut states = SmallVec::new(alloc);
        states.push_reserved(state);
        StateSet { states }
    }

    /// A set of the same states.
    pub fn copy(&self, alloc: Global) -> Result<StateSet, Memory>
        ensures { IfOk result (λ set. set ≡ self.now) }
    {
        match SmallVec::from_slice(alloc, self.states.as_slice()) {
            Ok(states) => Ok(StateSet { states }),
            Err(_) => Err(Memory),
        }
    }

    /// Puts a state in its place, unless it is there. Where memory is wanting, the set is as it was.
    pub fn insert(&mut self, state: u32) -> Result<(), Memory>
        ensures added { OnOk result (self.new ≡ with_state state self.old) }
        ensures kept { OnErr result (self.new ≡ self.old) }
    {
        match place_of(self.states.as_slice(), state) {
            None => Ok(()),
            Some(place) => match self.states.insert(place, state) {
                Ok(()) => Ok(()),
                Err(_) => Err(Memory),
            },
        }
    }
}

// Where a state goes among rising ones; `None` if it is there.
fn place_of(states: &[u32], state: u32) -> Option<usize>
    requires { IsStrictlyIncreasing states.now }
    ensures bound { IfSome result (λ place. place ≤ length states.now) }
    ensures place { IfSome result
        (λ place. insert states.now place state ≡ with_state state states.now) }
    ensures there { IfNone result (with_state state states.now ≡ states.now) }
{
    let place = states.partition_point(|other| *other < state);
    if place < states.len() && states[place] == state {
        None
    } else {
        Some(place)
    }
}
