ghost use Rattle.std.specs.Prelude.{◌≡◌, ℕ, ◌<◌, ◌⊎◌, [], ◌∷◌, ◌++◌, Some, IfOk, OnErr, length, slice_get};

use indexmap::IndexMap;
use std::alloc::Global;
use std::marker::Model;
use tm_auto::StateSet;
use tm_base::Memory;

/// Sets of states, each once, by the numbers in which they came. Contracts see the list of the sets.
#[derive(Drop)]
pub struct Sets {
    numbers: IndexMap<Vec<u32>, StateSet>,
}

impl Model for Sets {
    ghost use Rattle.std.specs.Prelude.{List, ℕ};
    ghost use Rattle.tm_walk.specs.Numbers.{sets_of, AreNumbered};

    ghost Value = { List (List ℕ) };

    ghost view = { λ sets. sets_of sets.numbers.entries };

    ghost invariant = { λ sets. AreNumbered sets.numbers.entries };
}

impl Sets {
    /// No sets. It takes no memory.
    pub fn new(alloc: Global) -> Sets
        ensures { result ≡ [] }
    {
        Sets {
            numbers: IndexMap::new(alloc),
        }
    }

    /// The set of a number.
    pub fn get(&self, number: usize) -> &StateSet
        requires { number < length self.now }
        ensures { slice_get self.now number ≡ Some result.now }
    {
        let (_, set) = self.numbers.get_index(number).unwrap();
        set
    }

    /// The number of a set, which is put last where it isn't there.
    pub fn number(&mut self, alloc: Global, set: StateSet) -> Result<usize, Memory>
        ensures number { IfOk result (λ number. slice_get self.new number ≡ Some set) }
        ensures only { IfOk result (λ number. (k : ℕ)
            → slice_get self.new k ≡ Some set → k ≡ number) }
        ensures grown { (self.new ≡ self.old) ⊎ (self.new ≡ self.old ++ set ∷ []) }
    {
        match self.numbers.get_index_of(set.as_slice()) {
            Some(number) => return Ok(number),
            None => {}
        }
        let states = Vec::from_slice(alloc, set.as_slice())?;
        let number = self.numbers.len();
        self.numbers.insert(states, set)?;
        Ok(number)
    }
}
