//! Pairs of sets that one edge leaves each, and that are walked by one symbol: most pairs are.
ghost use Rattle.std.specs.Prelude.{◌≡◌, ◌∷◌, [], IfSome};
ghost use Rattle.tm_base.specs.Transmutes.{is_itself};
ghost use Rattle.tm_auto.specs.Automata.{AreStates, IsStep};
ghost use Rattle.tm_auto.specs.Classes.{AreClasses};
ghost use Rattle.tm_auto.specs.OnlyEdges.{IsOnlyEdge, IsOnlyClass, ends_of};

use crate::auto::Auto;
use crate::class::cut;
use crate::edge::{Edge, Label, Symbol};
use crate::set::StateSet;
use std::alloc::Global;
use tm_base::{Equal, RefTest};

/// The only step from a pair of sets: the symbol, and what it leads to.
#[derive(Drop)]
pub struct OnlyStep {
    pub symbol: Symbol,
    pub src: StateSet,
    pub dst: StateSet,
}

/// The step from a pair of sets that one edge leaves each and that have one class. `None` says
/// nothing: `classes` and `step` tell of every pair. It takes no memory.
pub fn only_step<M: RefTest>(
    alloc: Global,
    refs: &M,
    src: &Auto,
    from: &StateSet,
    dst: &Auto,
    to: &StateSet,
) -> Option<OnlyStep>
    requires from { AreStates src.now from.now }
    requires to { AreStates dst.now to.now }
    ensures classes { IfSome result (λ step.
        AreClasses src.now from.now dst.now to.now (step.symbol ∷ [])) }
    ensures source { IfSome result (λ step. IsStep is_itself src.now from.now step.symbol step.src) }
    ensures target { IfSome result (λ step.
        IsStep (M.test refs.now) dst.now to.now step.symbol step.dst) }
{
    let source = only_edge(src, from)?;
    let target = only_edge(dst, to)?;
    let symbol = only_class(source.label, target.label)?;
    Some(OnlyStep {
        symbol,
        src: ends(alloc, &Equal, source, symbol),
        dst: ends(alloc, refs, target, symbol),
    })
}

/// The edge that leaves these states, where there is one state and one edge.
pub(crate) fn only_edge(auto: &Auto, states: &StateSet) -> Option<Edge>
    requires { AreStates auto.now states.now }
    ensures { IfSome result (λ edge. IsOnlyEdge auto.now states.now edge) }
{
    let [state] = states.as_slice() else {
        return None;
    };
    match auto.edges(*state) {
        [edge] => Some(*edge),
        _ => None,
    }
}

// The symbol of all cells that the source's label takes, where the target's doesn't tell them apart.
fn only_class(source: Label, target: Label) -> Option<Symbol>
    ensures { IfSome result (λ symbol. IsOnlyClass source target symbol) }
{
    match source {
        Label::Bytes(low, high) => {
            let end = u16::from(high) + 1;
            if low > high || cut(target, u16::from(low), end) < end {
                return None;
            }
            Some(Symbol::Bytes(low, high))
        }
        Label::Free => None,
        Label::Leaf(reference, place) => Some(Symbol::Ptr(reference, place)),
    }
}

/// The set of the end of an edge, where it passes the symbol.
pub(crate) fn ends<M: RefTest>(alloc: Global, refs: &M, edge: Edge, symbol: Symbol) -> StateSet
    ensures { result ≡ ends_of (M.test refs.now) edge symbol }
{
    if edge.label.takes(refs, symbol) {
        StateSet::of_one(alloc, edge.to)
    } else {
        StateSet::new(alloc)
    }
}
