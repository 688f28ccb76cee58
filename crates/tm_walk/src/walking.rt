//! The walk itself: layer after layer, up to the first pair on which the quantifier stops.
ghost use Rattle.std.specs.Prelude.{◌≡◌, ℕ, ◌+◌, ◌<◌, ◌≤◌, ◌^◌, [], IfOk, IfSome, IfNone, MatchOption, length};
ghost use Rattle.tm_auto.specs.Automata.{HasOneStateALayer};
ghost use Rattle.tm_walk.specs.Layers.{NoneStops, IsFirstStop, IsStart};
ghost use Rattle.tm_walk.specs.Sought.{NoneIsSought, IsFound, HaltsWhereDead};
ghost use Rattle.tm_walk.specs.Ways.{cells_to, LeadsBack};
ghost use Rattle.tm_walk.specs.Words.{IsFront, IsLeastWord, live_length};

use crate::advance::Walk;
use crate::completion::{least_word, live_length};
use crate::history::History;
use crate::layer::Layer;
use crate::live::is_live;
use crate::quantifier::Quantifier;
use std::alloc::Global;
use std::sync::ledger::Ledger;
use tm_auto::Auto;
use tm_base::{Memory, RefTest, Steps, Word};

/// The word that a walk found, and how far the target accepts it.
#[derive(Debug, Drop)]
pub struct Found {
    /// A source word: as many cells as the source has bytes.
    pub word: Word,
    /// How many cells of its fit, from the first on, are viable in the target, of those before the place
    /// at which it is sought: 0 to the target's size, and 0 where the target has no word.
    pub offset: u32,
}

/// Seeks a source word on which the quantifier stops: what it finds is the least of those on which it
/// stops earliest, and `None` says that there is none. Each pair of sets of states that is expanded
/// costs one step.
pub fn walk<Q: Quantifier, M: RefTest, L: Ledger>(
    alloc: Global,
    q: &Q,
    src: &Auto,
    dst: &Auto,
    refs: &M,
    steps: &mut Steps<L>,
) -> Result<Option<Found>, Memory>
    ensures found { IfOk result (λ answer. IfSome answer (λ found. IsFound
        (M.test refs.now) src.now dst.now (Q.stop q.now) (Q.skip q.now)
        found.word found.offset)) }
    ensures none { IfOk result (λ answer. IfNone answer (NoneIsSought
        (M.test refs.now) src.now dst.now (Q.stop q.now) (Q.skip q.now))) }
    ensures cost { HasOneStateALayer src.now → HasOneStateALayer dst.now
        → HaltsWhereDead (Q.stop q.now) (Q.skip q.now)
        → steps.new ≤ steps.old + (dst.now.size + 1) }
    ensures counted { steps.old ≤ steps.new }
{
    Walk {
        alloc,
        quantifier: q,
        src,
        dst,
        refs,
    }
    .run(steps)
}

/// How far a walk has come: the newest layer, and the ways of all.
#[derive(Drop)]
struct Front {
    layer: Layer,
    history: History,
}

impl<'a, Q: Quantifier, M: RefTest> Walk<'a, Q, M> {
    /// What `walk` answers.
    fn run<L: Ledger>(&self, steps: &mut Steps<L>) -> Result<Option<Found>, Memory>
        ensures found { IfOk result (λ answer. IfSome answer (λ found. IsFound
            (M.test self.now.refs.now) self.now.src.now self.now.dst.now
            (Q.stop self.now.quantifier.now) (Q.skip self.now.quantifier.now)
            found.word found.offset)) }
        ensures none { IfOk result (λ answer. IfNone answer (NoneIsSought
            (M.test self.now.refs.now) self.now.src.now self.now.dst.now
            (Q.stop self.now.quantifier.now) (Q.skip self.now.quantifier.now))) }
        ensures cost { HasOneStateALayer self.now.src.now → HasOneStateALayer self.now.dst.now
            → HaltsWhereDead (Q.stop self.now.quantifier.now) (Q.skip self.now.quantifier.now)
            → steps.new ≤ steps.old + (self.now.dst.now.size + 1) }
        ensures counted { steps.old ≤ steps.new }
    {
        let mut front = Front {
            layer: self.start()?,
            history: History::new(self.alloc),
        };
        self.go_on(&mut front, steps)
    }

    /// What `walk` answers, from the first layer on.
    fn go_on<L: Ledger>(
        &self,
        front: &mut Front,
        steps: &mut Steps<L>,
    ) -> Result<Option<Found>, Memory>
        requires first { IsStart self.now.src.now self.now.dst.now front.old.layer }
        requires nothing { front.old.history ≡ [] }
        ensures found { IfOk result (λ answer. IfSome answer (λ found. IsFound
            (M.test self.now.refs.now) self.now.src.now self.now.dst.now
            (Q.stop self.now.quantifier.now) (Q.skip self.now.quantifier.now)
            found.word found.offset)) }
        ensures none { IfOk result (λ answer. IfNone answer (NoneIsSought
            (M.test self.now.refs.now) self.now.src.now self.now.dst.now
            (Q.stop self.now.quantifier.now) (Q.skip self.now.quantifier.now))) }
        ensures cost { HasOneStateALayer self.now.src.now → HasOneStateALayer self.now.dst.now
            → HaltsWhereDead (Q.stop self.now.quantifier.now) (Q.skip self.now.quantifier.now)
            → steps.new ≤ steps.old + (self.now.dst.now.size + 1) }
        ensures counted { steps.old ≤ steps.new }
    {
        self.src.law();
        self.dst.law();
        let size = self.dst.size();
        let mut place = 0;
        'places: loop {
            let at_end = place == size;
            match self.first_stop(&front.layer, at_end) {
                Some(k) => return Ok(Some(self.found(&front.history, k)?)),
                None => {}
            }
            if at_end || front.layer.len() == 0 {
                return Ok(None);
            }
            front.layer = self.advance(place, &front.layer, steps)?;
            front.history.add(front.layer.ways(self.alloc)?)?;
            place += 1;
        }
    }

    /// The first pair of a layer on which the quantifier stops.
    fn first_stop(&self, layer: &Layer, at_end: bool) -> Option<usize>
        ensures { MatchOption result
            (NoneStops (Q.stop self.now.quantifier.now) at_end layer.now)
            (λ k. IsFirstStop (Q.stop self.now.quantifier.now) at_end layer.now k) }
    {
        for k in 0..layer.len() {
            let (_, to) = layer.sets(k);
            if self.quantifier.stops(is_live(to), at_end) {
                return Some(k);
            }
        }
        None
    }

    /// The word and the offset to which the ways lead back from the newest layer's k-th pair.
    fn found(&self, history: &History, k: usize) -> Result<Found, Memory>
        requires leads { LeadsBack history.now k }
        requires front { IsFront self.now.src.now (cells_to history.now k) }
        requires few { length (cells_to history.now k) < 2 ^ 32 }
        ensures word { IfOk result (λ found. IsLeastWord
            self.now.src.now (cells_to history.now k) found.word) }
        ensures offset { IfOk result (λ found. found.offset ≡ live_length
            (M.test self.now.refs.now) self.now.dst.now self.now.dst.now.starts
            (cells_to history.now k)) }
    {
        let cells = history.cells(self.alloc, k)?;
        let offset = live_length(self.alloc, self.refs, self.dst, cells.as_slice())?;
        let word = least_word(self.alloc, self.src, cells.as_slice())?;
        Ok(Found { word, offset })
    }
}
