//! Which pairs of references are asked for.
ghost use Rattle.std.specs.Prelude.{◌≡◌, ℕ, ◌==◌, ◌&&◌, ◌||◌, false, IfOk, OnOk};
ghost use Rattle.tm_refute.specs.Asking.{is_asked};

use indexmap::IndexMap;
use std::alloc::Global;
use tm_base::{Memory, RefId};

/// Pairs of references that pieces ask for.
#[derive(Drop)]
pub struct Asked {
    /// By the numbers of the source and of the target.
    pub pairs: IndexMap<(u32, u32), bool>,
}

impl Asked {
    /// None.
    pub fn new(alloc: Global) -> Asked
        ensures { (r t : ℕ) → is_asked result r t ≡ false }
    {
        Asked {
            pairs: IndexMap::new(alloc),
        }
    }

    /// Whether a pair is asked for.
    pub fn has(&self, source: RefId, target: RefId) -> bool
        ensures { result ≡ is_asked self.now source.0 target.0 }
    {
        self.pairs.get(&(source.0, target.0)).is_some()
    }

    /// Asks for a pair.
    pub fn add(&mut self, source: RefId, target: RefId) -> Result<(), Memory>
        ensures { OnOk result ((r t : ℕ) → is_asked self.new r t
            ≡ (((source.0 == r) && (target.0 == t)) || is_asked self.old r t)) }
    {
        self.pairs.insert((source.0, target.0), true)?;
        Ok(())
    }
}
