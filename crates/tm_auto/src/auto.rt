ghost use Rattle.std.specs.Prelude.{◌≡◌, ℕ, ◌+◌, ◌^◌, ◌<◌, ◌≤◌, ◌⊎◌, ◌↔◌, Bool, IfOk, OnOk, IsTrue, length};
ghost use Rattle.tm_base.specs.Cells.{Word};
ghost use Rattle.tm_base.specs.Shapes.{leaves_of, HasNoPrivate, HasNoChoice, HasSize};
ghost use Rattle.tm_base.specs.Transmutes.{holds};
ghost use Rattle.tm_base.specs.Trees.{TreeWord};
ghost use Rattle.tm_auto.specs.Automata.{AutoWord, IsAutomaton, HasOneStateALayer, IsLayered, ReadsWords, AreStates, AreInLayer, IsStep, edges_from};
ghost use Rattle.tm_auto.specs.Sets.{with_ends};

use crate::build::Building;
use crate::edge::{Edge, Symbol};
use crate::edges::Edges;
use crate::set::StateSet;
use std::alloc::Global;
use std::marker::Model;
use tm_base::{Memory, RefTest, Tree};

/// An automaton over cells. Contracts see its states, its edges, its starts, of which there is one at
/// most, and the numbers of cells of its words and of a reference.
#[derive(Drop)]
pub struct Auto {
    states: u32,
    edges: Edges,
    starts: StateSet,
    size: u32,
    pointer: u32,
}

impl Model for Auto {
    ghost use Rattle.tm_auto.specs.Automata.{Automaton, IsAutomaton};

    ghost Value = { Automaton };

    ghost view = { λ auto.
        record {
          states = auto.states;
          edges = auto.edges;
          starts = auto.starts;
          size = auto.size;
          pointer = auto.pointer;
        } };

    ghost invariant = { λ auto. IsAutomaton
        (record {
          states = auto.states;
          edges = auto.edges;
          starts = auto.starts;
          size = auto.size;
          pointer = auto.pointer;
        }) };
}

impl Auto {
    /// The automaton of a tree without private parts, whose words all have `size` cells. A reference has
    /// `pointer` cells, which is 4 or 8.
    pub fn build(alloc: Global, tree: &Tree, size: u32, pointer: u32) -> Result<Auto, Memory>
        requires pointer { (pointer ≡ 4) ⊎ (pointer ≡ 8) }
        requires public { HasNoPrivate tree.now }
        requires leaves { leaves_of pointer tree.now < 2 ^ 31 }
        requires sized { HasSize pointer size tree.now }
        ensures size { IfOk result (λ auto. auto.size ≡ size) }
        ensures pointer { IfOk result (λ auto. auto.pointer ≡ pointer) }
        ensures words { IfOk result (λ auto. (A : ℕ → ℕ → Bool) (keep : Bool) (w : Word)
            → TreeWord pointer (holds A) keep tree.now w ↔ AutoWord (holds A) auto w) }
        ensures single { HasNoChoice tree.now → IfOk result (λ auto. HasOneStateALayer auto) }
        ensures linear { IfOk result (λ auto. length auto.edges ≤ leaves_of pointer tree.now) }
    {
        let mut b = Building::new(alloc, pointer as u8);
        match b.whole(tree)? {
            None => Ok(Auto {
                states: 0,
                edges: Edges::new(alloc),
                starts: StateSet::new(alloc),
                size,
                pointer,
            }),
            Some(start) => Ok(Auto {
                states: b.states,
                edges: Edges::of(alloc, b.edges)?,
                starts: StateSet::of_one(alloc, start),
                size,
                pointer,
            }),
        }
    }

    /// Nothing is done: the clauses say what holds of every automaton.
    pub fn law(&self)
        ensures automaton { IsAutomaton self.now }
        ensures layers { IsLayered self.now }
        ensures reads { ReadsWords self.now }
    {
        let _ = &self.states;
    }

    /// The set of the states at which words begin. What follows from a set by `step` is what a list of
    /// cells reaches.
    pub fn start(&self, alloc: Global) -> Result<StateSet, Memory>
        ensures starts { IfOk result (λ set. set ≡ self.now.starts) }
        ensures states { IfOk result (λ set. AreStates self.now set) }
    {
        self.starts.copy(alloc)
    }

    /// How many cells each word has.
    pub fn size(&self) -> u32
        ensures { result ≡ self.now.size }
    {
        self.size
    }

    /// Whether at each place of the words there is one state at most.
    pub fn has_one_state_a_layer(&self) -> bool
        ensures { IsTrue result ↔ HasOneStateALayer self.now }
    {
        u64::from(self.states) <= u64::from(self.size) + 1
    }

    /// The edges that leave a state of the automaton, in order.
    pub fn edges(&self, state: u32) -> &[Edge]
        requires { state < self.now.states }
        ensures { result.now ≡ edges_from state self.now.edges }
    {
        self.edges.leaving(state)
    }

    /// The set of the states to which an edge leads that leaves one of these and passes the symbol. A
    /// range of bytes is passed as a whole or not at all.
    pub fn step<M: RefTest>(
        &self,
        alloc: Global,
        refs: &M,
        from: &StateSet,
        symbol: Symbol,
    ) -> Result<StateSet, Memory>
        requires { AreStates self.now from.now }
        ensures step { IfOk result (λ set. IsStep (M.test refs.now) self.now from.now symbol set) }
        ensures states { IfOk result (λ set. AreStates self.now set) }
        ensures layer { (k : ℕ) → AreInLayer self.now k from.now
            → IfOk result (λ set. AreInLayer self.now (k + 1) set) }
    {
        let mut reached = StateSet::new(alloc);
        for state in from.as_slice() {
            follow(refs, self.edges.leaving(*state), symbol, &mut reached)?;
        }
        Ok(reached)
    }
}

// Puts the end of each edge that passes the symbol into the set.
fn follow<M: RefTest>(
    refs: &M,
    edges: &[Edge],
    symbol: Symbol,
    reached: &mut StateSet,
) -> Result<(), Memory>
    ensures { OnOk result (reached.new ≡ with_ends (M.test refs.now) symbol edges.now reached.old) }
{
    for edge in edges {
        if edge.label.takes(refs, symbol) {
            reached.insert(edge.to)?;
        }
    }
    Ok(())
}
