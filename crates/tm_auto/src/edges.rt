ghost use Rattle.std.specs.Prelude.{◌≡◌, [], ◌+◌, ◌≤◌, IfOk, length, slice_range};
ghost use Rattle.tm_auto.specs.Automata.{IsOrdered, edges_from};
ghost use Rattle.tm_auto.specs.Firsts.{IsFirst, AreFirsts};

use crate::edge::Edge;
use std::alloc::Global;
use std::marker::Model;
use tm_base::Memory;

/// Edges in the order of the states that they leave, which are found by the state's number. Contracts see
/// the list of the edges.
#[derive(Drop)]
pub(crate) struct Edges {
    edges: Vec<Edge>,
    firsts: Vec<usize>,
}

impl Model for Edges {
    ghost use Rattle.std.specs.Prelude.{List};
    ghost use Rattle.tm_auto.specs.declared.edge.Edge.{Edge};
    ghost use Rattle.tm_auto.specs.Firsts.{AreFirsts};

    ghost Value = { List Edge };

    ghost view = { λ edges. edges.edges.items };

    ghost invariant = { λ edges. AreFirsts edges.edges.items edges.firsts.items };
}

impl Edges {
    /// No edges. It takes no memory.
    pub(crate) fn new(alloc: Global) -> Edges
        ensures { result ≡ [] }
    {
        Edges {
            edges: Vec::new(alloc),
            firsts: Vec::new(alloc),
        }
    }

    /// These edges, which stand in order.
    pub(crate) fn of(alloc: Global, edges: Vec<Edge>) -> Result<Edges, Memory>
        requires { IsOrdered edges.items }
        ensures { IfOk result (λ made. made ≡ edges.items) }
    {
        let firsts = firsts_of(alloc, edges.as_slice())?;
        Ok(Edges { edges, firsts })
    }

    /// Those that leave a state: they stand side by side.
    pub(crate) fn leaving(&self, state: u32) -> &[Edge]
        ensures { result.now ≡ edges_from state self.now }
    {
        let first = self.first(state as usize);
        let end = self.first(state as usize + 1);
        &self.edges[first..end]
    }

    // The place of the first that leaves the state or a later one; where none does, their number.
    fn first(&self, state: usize) -> usize
        ensures { IsFirst self.now state result }
    {
        match self.firsts.get(state) {
            Some(place) => *place,
            None => self.edges.len(),
        }
    }
}

// The places at which the edges of the states begin, up to the last state that an edge leaves.
fn firsts_of(alloc: Global, edges: &[Edge]) -> Result<Vec<usize>, Memory>
    requires { IsOrdered edges.now }
    ensures { IfOk result (λ firsts. AreFirsts edges.now firsts.items) }
{
    let mut firsts = Vec::new(alloc);
    for (place, edge) in edges.iter().enumerate() {
        firsts.resize(edge.from as usize + 1, place)?;
    }
    Ok(firsts)
}
