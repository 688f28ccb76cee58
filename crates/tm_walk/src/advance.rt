//! One layer from the layer before it.
ghost use Rattle.std.specs.Prelude.{◌≡◌, ℕ, ◌+◌, ◌<◌, ◌≤◌, [], ◌∷◌, ◌⊎◌, IfOk, OnOk, IfSome, length, slice_get, Some, Contains};
ghost use Rattle.tm_base.specs.Transmutes.{is_itself};
ghost use Rattle.tm_auto.specs.Automata.{AreStates, IsStep};
ghost use Rattle.tm_walk.specs.Layers.{Entry, HasStates, AreSymbols, AreOffered, IsExpanded, IsNext, offers, weight_at, weights, IsStart};

use crate::layer::Layer;
use crate::live::is_live;
use crate::quantifier::Quantifier;
use crate::way::{Reached, Way};
use std::alloc::Global;
use std::sync::ledger::Ledger;
use tm_auto::{Auto, OnlyStep, StateSet, Symbol, classes, only_step};
use tm_base::{Equal, List, Memory, RefTest, Steps};

/// What is walked, and what is sought.
#[derive(Drop)]
pub struct Walk<'a, Q, M> {
    pub alloc: Global,
    pub quantifier: &'a Q,
    pub src: &'a Auto,
    pub dst: &'a Auto,
    pub refs: &'a M,
}

impl<'a, Q: Quantifier, M: RefTest> Walk<'a, Q, M> {
    /// The first layer: the pair of the automata's starts, or nothing where the source has no word. The
    /// way of that pair says nothing: nothing leads to it.
    pub fn start(&self) -> Result<Layer, Memory>
        ensures { IfOk result (λ layer. IsStart self.now.src.now self.now.dst.now layer) }
    {
        let mut layer = Layer::new();
        let src = self.src.start(self.alloc)?;
        if is_live(&src) {
            let dst = self.dst.start(self.alloc)?;
            let way = Way::default();
            layer.offer(self.alloc, Reached { src, dst, way })?;
        }
        Ok(layer)
    }

    /// The symbols by which a pair of sets is expanded at a place.
    fn symbols(&self, place: u32, from: &StateSet, to: &StateSet) -> Result<List<Symbol>, Memory>
        requires from { AreStates self.now.src.now from.now }
        requires to { AreStates self.now.dst.now to.now }
        ensures { IfOk result (λ symbols. AreSymbols
            (M.test self.now.refs.now) self.now.src.now self.now.dst.now
            place from.now to.now symbols) }
    {
        if place < self.src.size() {
            return classes(self.alloc, self.src, from, self.dst, to);
        }
        let mut symbols = List::new(self.alloc);
        symbols.add(Symbol::Uninit)?;
        Ok(symbols)
    }

    /// The only step by which a pair of sets is expanded at a place; `None` says nothing.
    fn only_step(&self, place: u32, from: &StateSet, to: &StateSet) -> Option<OnlyStep>
        requires from { AreStates self.now.src.now from.now }
        requires to { AreStates self.now.dst.now to.now }
        ensures symbols { IfSome result (λ step. AreSymbols
            (M.test self.now.refs.now) self.now.src.now self.now.dst.now
            place from.now to.now (step.symbol ∷ [])) }
        ensures source { IfSome result (λ step.
            IsStep is_itself self.now.src.now from.now step.symbol step.src) }
        ensures target { IfSome result (λ step.
            IsStep (M.test self.now.refs.now) self.now.dst.now to.now step.symbol step.dst) }
    {
        if place >= self.src.size() {
            return None;
        }
        only_step(self.alloc, self.refs, self.src, from, self.dst, to)
    }

    /// Offers the next layer what the symbols make of a pair of sets, the layer's k-th.
    fn offer_steps(
        &self,
        from: &StateSet,
        to: &StateSet,
        k: usize,
        symbols: &[Symbol],
        next: &mut Layer,
    ) -> Result<(), Memory>
        requires from { AreStates self.now.src.now from.now }
        requires to { AreStates self.now.dst.now to.now }
        ensures { OnOk result (AreOffered
            (offers (M.test self.now.refs.now) self.now.src.now self.now.dst.now
            from.now to.now k symbols.now)
            next.old next.new) }
    {
        for symbol in symbols {
            let src = self.src.step(self.alloc, &Equal, from, *symbol)?;
            let dst = self.dst.step(self.alloc, self.refs, to, *symbol)?;
            let way = Way {
                parent: k,
                cell: symbol.least(),
            };
            next.offer(self.alloc, Reached { src, dst, way })?;
        }
        Ok(())
    }

    /// Expands a layer's k-th pair, unless it is skipped, into the next layer.
    fn expand<L: Ledger>(
        &self,
        place: u32,
        layer: &Layer,
        k: usize,
        next: &mut Layer,
        steps: &mut Steps<L>,
    ) -> Result<(), Memory>
        requires within { k < length layer.now }
        requires states { (e : Entry) → Contains layer.now e
            → HasStates (M.test self.now.refs.now) self.now.src.now self.now.dst.now e }
        ensures expanded { OnOk result (IsExpanded
            (M.test self.now.refs.now) self.now.src.now self.now.dst.now
            (Q.skip self.now.quantifier.now) place layer.now k next.old next.new) }
        ensures cost { steps.new
            ≤ steps.old + weight_at (Q.skip self.now.quantifier.now) layer.now k }
        ensures counted { steps.old ≤ steps.new }
    {
        let (from, to) = layer.sets(k);
        if self.quantifier.skips(is_live(to)) {
            return Ok(());
        }
        steps.tick();
        if let Some(step) = self.only_step(place, from, to) {
            let way = Way {
                parent: k,
                cell: step.symbol.least(),
            };
            let OnlyStep { src, dst, .. } = step;
            return next.offer(self.alloc, Reached { src, dst, way });
        }
        let symbols = self.symbols(place, from, to)?;
        self.offer_steps(from, to, k, symbols.as_slice(), next)
    }

    /// The layer behind this one, which is at the place.
    pub fn advance<L: Ledger>(
        &self,
        place: u32,
        layer: &Layer,
        steps: &mut Steps<L>,
    ) -> Result<Layer, Memory>
        requires states { (e : Entry) → Contains layer.now e
            → HasStates (M.test self.now.refs.now) self.now.src.now self.now.dst.now e }
        ensures next { IfOk result (λ next. IsNext
            (M.test self.now.refs.now) self.now.src.now self.now.dst.now
            (Q.skip self.now.quantifier.now) place layer.now (length layer.now) next) }
        ensures cost { steps.new
            ≤ steps.old + weights (Q.skip self.now.quantifier.now) layer.now }
        ensures counted { steps.old ≤ steps.new }
    {
        let mut next = Layer::new();
        for k in 0..layer.len() {
            self.expand(place, layer, k, &mut next, steps)?;
        }
        Ok(next)
    }
}
