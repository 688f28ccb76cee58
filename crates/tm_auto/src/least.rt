//! The least step from a set of states: by such steps a word is completed.
ghost use Rattle.std.specs.Prelude.{◌≡◌, IfOk};
ghost use Rattle.tm_base.specs.declared.cell.Cell.{Cell};
ghost use Rattle.tm_base.specs.Transmutes.{is_itself};
ghost use Rattle.tm_auto.specs.Automata.{AreStates, IsStep};
ghost use Rattle.tm_auto.specs.Classes.{TakesFrom};
ghost use Rattle.tm_auto.specs.Least.{IsLeastCell};
ghost use Rattle.tm_auto.specs.Sets.{symbol_of};

use crate::auto::Auto;
use crate::class::classes;
use crate::edge::Symbol;
use crate::only::{ends, only_edge};
use crate::set::StateSet;
use std::alloc::Global;
use tm_base::{Cell, Equal, Memory};

/// The least cell by which a word goes on, and what it leads to.
#[derive(Drop)]
pub struct LeastStep {
    /// The least cell that an edge from the states takes.
    pub cell: Cell,
    /// The states to which an edge leads that leaves them and takes the cell.
    pub set: StateSet,
}

/// The least cell that an edge from these states takes, where each reference holds itself alone, and the
/// set of the states that it leads to. Where one edge leaves them, it takes no memory.
pub fn least_step(alloc: Global, auto: &Auto, from: &StateSet) -> Result<LeastStep, Memory>
    requires states { AreStates auto.now from.now }
    requires some { ((c : Cell) × TakesFrom auto.now from.now c) }
    ensures cell { IfOk result (λ step. IsLeastCell auto.now from.now step.cell) }
    ensures set { IfOk result (λ step.
        IsStep is_itself auto.now from.now (symbol_of step.cell) step.set) }
    ensures states { IfOk result (λ step. AreStates auto.now step.set) }
{
    auto.law();
    if let Some(edge) = only_edge(auto, from) {
        let cell = edge.label.least();
        let set = ends(alloc, &Equal, edge, Symbol::of(cell));
        return Ok(LeastStep { cell, set });
    }
    let symbols = classes(alloc, auto, from, auto, from)?;
    let cell = symbols.as_slice()[0].least();
    let set = auto.step(alloc, &Equal, from, Symbol::of(cell))?;
    Ok(LeastStep { cell, set })
}
