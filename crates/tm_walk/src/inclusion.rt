//! Inclusion: whether each source word fits, asked without sets of the source's words.
ghost use Rattle.std.specs.Prelude.{◌<◌, ◌↔◌, [], IfOk, OnOk, IsTrue, length, Contains};
ghost use Rattle.tm_walk.specs.declared.obligation.Obligation.{Obligation};
ghost use Rattle.tm_walk.specs.Meanings.{EachWordFits};
ghost use Rattle.tm_walk.specs.Obligations.{AreAdded, IsBetween, IsFirst, FollowsGroup, FollowsSome, FollowsState, HaveOneTarget, Stays};

use crate::antichain::Antichain;
use crate::group::{group_length, states_of};
use crate::obligation::Obligation;
use std::alloc::Global;
use tm_auto::{Auto, StateSet, Symbol, classes, only_step};
use tm_base::{Equal, Memory, RefTest};

/// Whether each word of the source, fitted, is a word of the target. Alternatives that overlap are gone
/// through one by one.
pub fn is_included<M: RefTest>(
    alloc: Global,
    src: &Auto,
    dst: &Auto,
    refs: &M,
) -> Result<bool, Memory>
    ensures included { IfOk result (λ included. IsTrue included
        ↔ EachWordFits (M.test refs.now) src.now dst.now) }
{
    Inclusion {
        alloc,
        src,
        dst,
        refs,
    }
    .holds()
}

/// What is asked of what.
#[derive(Drop)]
struct Inclusion<'a, M> {
    alloc: Global,
    src: &'a Auto,
    dst: &'a Auto,
    refs: &'a M,
}

impl<'a, M: RefTest> Inclusion<'a, M> {
    /// What `is_included` answers.
    fn holds(&self) -> Result<bool, Memory>
        ensures { IfOk result (λ included. IsTrue included
            ↔ EachWordFits (M.test self.now.refs.now) self.now.src.now self.now.dst.now) }
    {
        self.src.law();
        self.dst.law();
        let mut layer = self.start()?;
        for place in 0..self.dst.size() {
            if layer.is_refused() {
                return Ok(false);
            }
            layer = self.advance(place, &layer)?;
        }
        Ok(!layer.is_refused())
    }

    /// The obligations before the first cell.
    fn start(&self) -> Result<Antichain, Memory>
        ensures { IfOk result (λ layer. AreAdded
            (IsFirst self.now.src.now self.now.dst.now) [] layer) }
    {
        let mut layer = Antichain::new(self.alloc);
        let starts = self.src.start(self.alloc)?;
        for state in starts.as_slice() {
            layer.add(Obligation {
                state: *state,
                target: self.dst.start(self.alloc)?,
            })?;
        }
        Ok(layer)
    }

    /// What follows from a layer's obligations, which are at the place.
    fn advance(&self, place: u32, layer: &Antichain) -> Result<Antichain, Memory>
        requires states { (o : Obligation) → Contains layer.now o
            → IsBetween self.now.src.now self.now.dst.now o }
        ensures { IfOk result (λ next. AreAdded
            (FollowsSome (M.test self.now.refs.now) self.now.src.now self.now.dst.now
            place layer.now) [] next) }
    {
        let mut next = Antichain::new(self.alloc);
        let mut rest = layer.as_slice();
        while !rest.is_empty() {
            let (group, others) = rest.split_at(group_length(rest));
            self.expand(place, group, &mut next)?;
            rest = others;
        }
        Ok(next)
    }

    /// Adds what follows from obligations of one target set, of which all is asked once for them together.
    /// Behind the source's end their states stay.
    fn expand(&self, place: u32, group: &[Obligation], next: &mut Antichain) -> Result<(), Memory>
        requires some { 0 < length group.now }
        requires states { (o : Obligation) → Contains group.now o
            → IsBetween self.now.src.now self.now.dst.now o }
        requires one { HaveOneTarget group.now }
        ensures { OnOk result (AreAdded
            (FollowsSome (M.test self.now.refs.now) self.now.src.now self.now.dst.now
            place group.now) next.old next.new) }
    {
        let target = &group[0].target;
        if place >= self.src.size() {
            let behind = self
                .dst
                .step(self.alloc, self.refs, target, Symbol::Uninit)?;
            return self.stay(group, &behind, next);
        }
        let states = states_of(self.alloc, group)?;
        if let Some(step) = only_step(self.alloc, self.refs, self.src, &states, self.dst, target) {
            return self.follow(group, step.symbol, &step.dst, next);
        }
        let symbols = classes(self.alloc, self.src, &states, self.dst, target)?;
        for symbol in symbols.as_slice() {
            let behind = self.dst.step(self.alloc, self.refs, target, *symbol)?;
            self.follow(group, *symbol, &behind, next)?;
        }
        Ok(())
    }

    /// Adds the obligations' states, each with the set.
    fn stay(
        &self,
        group: &[Obligation],
        target: &StateSet,
        next: &mut Antichain,
    ) -> Result<(), Memory>
        ensures { OnOk result (AreAdded (Stays target.now group.now) next.old next.new) }
    {
        for obligation in group {
            next.add(Obligation {
                state: obligation.state,
                target: target.copy(self.alloc)?,
            })?;
        }
        Ok(())
    }

    /// Adds the states to which edges lead that leave the obligations' states and pass the symbol, each with the
    /// set.
    fn follow(
        &self,
        group: &[Obligation],
        symbol: Symbol,
        target: &StateSet,
        next: &mut Antichain,
    ) -> Result<(), Memory>
        requires states { (o : Obligation) → Contains group.now o
            → IsBetween self.now.src.now self.now.dst.now o }
        ensures { OnOk result (AreAdded
            (FollowsGroup self.now.src.now symbol target.now group.now) next.old next.new) }
    {
        for obligation in group {
            self.follow_edges(obligation.state, symbol, target, next)?;
        }
        Ok(())
    }

    /// The same for one state.
    fn follow_edges(
        &self,
        state: u32,
        symbol: Symbol,
        target: &StateSet,
        next: &mut Antichain,
    ) -> Result<(), Memory>
        requires { state < self.now.src.now.states }
        ensures { OnOk result (AreAdded
            (FollowsState self.now.src.now symbol target.now state) next.old next.new) }
    {
        for edge in self.src.edges(state) {
            if edge.label.takes(&Equal, symbol) {
                next.add(Obligation {
                    state: edge.to,
                    target: target.copy(self.alloc)?,
                })?;
            }
        }
        Ok(())
    }
}
