ghost use Rattle.std.specs.Prelude.{◌≡◌, ◌<◌, [], ◌∷◌, Some, IfOk, OnOk, length, slice_get};
ghost use Rattle.tm_walk.specs.Ways.{cells_to, LeadsBack};

use crate::way::{Way, Ways};
use std::alloc::Global;
use std::marker::Model;
use tm_base::{Cell, Memory};

/// The ways of all layers up to one. Contracts see them newest first.
#[derive(Drop)]
pub struct History {
    layers: Vec<Ways>,
}

impl Model for History {
    ghost use Rattle.std.specs.Prelude.{List};
    ghost use Rattle.tm_walk.specs.declared.way.Way.{Way};
    ghost use Rattle.tm_walk.specs.Ways.{newest_first};

    ghost Value = { List (List Way) };

    ghost view = { λ history. newest_first history.layers.items };
}

impl History {
    /// No layers. It takes no memory.
    pub fn new(alloc: Global) -> History
        ensures { result ≡ [] }
    {
        History {
            layers: Vec::new(alloc),
        }
    }

    /// Adds the ways of the next layer.
    pub fn add(&mut self, ways: Ways) -> Result<(), Memory>
        ensures { OnOk result (self.new ≡ ways.items ∷ self.old) }
    {
        self.layers.push(ways)?;
        Ok(())
    }

    /// The cells along the ways back from the newest layer's k-th pair, the first one first.
    pub fn cells(&self, alloc: Global, k: usize) -> Result<Vec<Cell>, Memory>
        requires { LeadsBack self.now k }
        ensures { IfOk result (λ cells. cells.items ≡ cells_to self.now k) }
    {
        let mut cells = Vec::new(alloc);
        let mut older = self.layers.as_slice();
        let mut at = k;
        while let Some((ways, before)) = older.split_last() {
            let way = way_at(ways, at);
            cells.push(way.cell)?;
            at = way.parent;
            older = before;
        }
        cells.as_mut_slice().reverse();
        Ok(cells)
    }
}

/// The way of a pair.
fn way_at(ways: &[Way], at: usize) -> Way
    requires { at < length ways.now }
    ensures { slice_get ways.now at ≡ Some result }
{
    ways[at]
}
