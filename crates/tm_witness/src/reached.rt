//! What a list of cells reaches in an automaton, and how words go on from there.
ghost use Rattle.std.specs.Prelude.{◌≡◌, ◌↔◌, IsTrue, IfOk};
ghost use Rattle.std.specs.List.{list_any};
ghost use Rattle.tm_auto.specs.Automata.{AreStates, reached};
ghost use Rattle.tm_witness.specs.GoingOn.{GoesOnByByte, IsLeastOpen};
ghost use Rattle.tm_witness.specs.Search.{lesser_open, least_among, takes_bytes};

use std::alloc::Global;
use tm_auto::{Auto, Edge, Label, StateSet, Symbol};
use tm_base::{Cell, Memory, RefId, RefTest};

/// The states that the cells lead to from the start.
pub(crate) fn reached_by<M: RefTest>(
    alloc: Global,
    auto: &Auto,
    refs: &M,
    cells: &[Cell],
) -> Result<StateSet, Memory>
    ensures reached { IfOk result (λ set. set ≡ reached (M.test refs.now) auto.now cells.now) }
    ensures states { IfOk result (λ set. AreStates auto.now set) }
{
    auto.law();
    let mut states = auto.start(alloc)?;
    for cell in cells {
        states = auto.step(alloc, refs, &states, Symbol::of(*cell))?;
    }
    Ok(states)
}

/// Whether an initialised byte may be read at one of the states.
pub(crate) fn goes_on_by_byte(auto: &Auto, states: &StateSet) -> bool
    requires { AreStates auto.now states.now }
    ensures { IsTrue result ↔ GoesOnByByte auto.now states.now }
{
    for state in states.as_slice() {
        if some_takes_bytes(auto.edges(*state)) {
            return true;
        }
    }
    false
}

/// Whether one of the edges takes an initialised byte.
fn some_takes_bytes(edges: &[Edge]) -> bool
    ensures { result ≡ list_any (λ e. takes_bytes e.label) edges.now }
{
    edges.iter().any(|edge| takes_bytes(edge.label))
}

/// Whether the label takes some initialised byte.
fn takes_bytes(label: Label) -> bool
    ensures { result ≡ takes_bytes label }
{
    match label {
        Label::Bytes(_, _) => true,
        Label::Free => true,
        Label::Leaf(_, _) => false,
    }
}

/// The reference with the least number of those that may begin at one of the states.
pub(crate) fn least_open(auto: &Auto, states: &StateSet) -> Option<RefId>
    requires { AreStates auto.now states.now }
    ensures { IsLeastOpen auto.now states.now result }
{
    let mut least = None;
    for state in states.as_slice() {
        least = least_among(least, auto.edges(*state));
    }
    least
}

/// The lesser of a reference and the least of those that begin on the edges.
fn least_among(least: Option<RefId>, edges: &[Edge]) -> Option<RefId>
    ensures { result ≡ least_among least edges.now }
{
    edges
        .iter()
        .fold(least, |least, edge| lesser_open(least, edge.label))
}

/// The lesser of a reference and of the one that begins with the label.
fn lesser_open(least: Option<RefId>, label: Label) -> Option<RefId>
    ensures { result ≡ lesser_open least label }
{
    match (least, label) {
        (None, Label::Leaf(found, 0)) => Some(found),
        (Some(other), Label::Leaf(found, 0)) if found.0 < other.0 => Some(found),
        _ => least,
    }
}
