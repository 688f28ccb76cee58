//! At which depth each pair of references fails.
ghost use Rattle.std.specs.Prelude.{◌≡◌, ℕ, IfOk, OnOk};
ghost use Rattle.tm_refute.specs.Depths.{AreDepthsOf, depth_after, depth_in};

use crate::refutation::Entry;
use indexmap::IndexMap;
use std::alloc::Global;
use tm_base::{Memory, RefId};

/// For each pair of references that some entries name, the least depth that they name for it.
#[derive(Drop)]
pub struct Depths {
    /// By the numbers of the source and of the target.
    pub least: IndexMap<(u32, u32), u32>,
}

impl Depths {
    /// Those of some entries.
    pub fn of_entries(alloc: Global, entries: &[Entry]) -> Result<Depths, Memory>
        ensures { IfOk result (AreDepthsOf entries.now) }
    {
        let mut depths = Depths {
            least: IndexMap::new(alloc),
        };
        for entry in entries {
            depths.add(entry)?;
        }
        Ok(depths)
    }

    /// The least depth at which entries name the pair.
    pub fn depth(&self, source: RefId, target: RefId) -> Option<u32>
        ensures { result ≡ depth_in self.now source.0 target.0 }
    {
        self.least.get(&(source.0, target.0)).copied()
    }

    /// Takes an entry in.
    fn add(&mut self, entry: &Entry) -> Result<(), Memory>
        ensures { OnOk result ((r t : ℕ)
            → depth_in self.new r t ≡ depth_after (depth_in self.old r t) r t entry.now) }
    {
        let depth = match self.depth(entry.source, entry.target) {
            None => entry.depth,
            Some(least) => least.min(entry.depth),
        };
        self.least.insert((entry.source.0, entry.target.0), depth)?;
        Ok(())
    }
}
