//! The entries of a refutation.
ghost use Rattle.std.specs.Prelude.{◌≡◌, ◌↔◌, ◌∷◌, ◌++◌, [], ℕ, nat_lt, true, IfOk, List as Listed, None, OnOk, length};
ghost use Rattle.tm_base.specs.declared.ask.Ask.{Ask as Question};
ghost use Rattle.tm_base.specs.Answers.{AreJudged};
ghost use Rattle.tm_base.specs.Rules.{source, target};
ghost use Rattle.tm_base.specs.Worlds.{IsTypeOver, tables_of};
ghost use Rattle.tm_refs.specs.Solved.{FailsFirstAt};
ghost use Rattle.tm_refute.specs.Chosen.{IsChosenEntry, IsFirstRefused, IsRefutationOf};
ghost use Rattle.tm_refute.specs.Asking.{IsAskedBy, is_asked};
ghost use Rattle.tm_refute.specs.Entries.{AreJudgedPair, AreKept, AsksMore, failing_of};
ghost use Rattle.tm_refute.specs.Making.{IsMaking};
ghost use Rattle.tm_refute.specs.TextForms.{most_cells_together};
ghost use Rattle.tm_refute.specs.declared.refutation.Entry.{Entry as EntryValue};

use crate::refutation::{Entry, Piece};
use crate::refuting::asked::Asked;
use crate::refuting::failing::{Failing, pairs_in_order};
use crate::refuting::maker::Maker;
use tm_base::{Ask, List, Memory};

/// The most cells that the words of a refutation have together.
const MOST: usize = 16_777_216;

/// The entries so far; once all words have too many cells none is kept any more.
#[derive(Drop)]
pub struct Made {
    pub entries: List<Entry>,
    /// How many cells all words have.
    pub cells: usize,
}

impl Made {
    /// Takes an entry.
    fn add(&mut self, entry: Entry) -> Result<(), Memory>
        ensures { (top : ℕ) (entries : Listed EntryValue) → AreKept top entries self.old
            → OnOk result (AreKept top (entries ++ entry ∷ []) self.new) }
    {
        self.cells = self.cells.saturating_add(entry.proof.cells());
        if !self.is_past() {
            self.entries.add(entry)?;
        }
        Ok(())
    }

    /// Whether the words have too many cells.
    pub fn is_past(&self) -> bool
        ensures { result ≡ nat_lt most_cells_together self.now.cells }
    {
        self.cells > MOST
    }
}

impl Maker<'_> {
    /// Makes the entries for the pairs that the top asks for, and for those that they ask for in turn. What a pair
    /// asks for fails at lesser depths, so it stands further back.
    pub fn entries(
        &self,
        ask: &Ask,
        top: &Piece,
        asked: &mut Asked,
        made: &mut Made,
    ) -> Result<(), Memory>
        requires making { IsMaking self.now }
        requires assume { self.now.assume ≡ ask.now.assume }
        requires source { IsTypeOver (tables_of self.now.world.now) ask.now.src }
        requires target { IsTypeOver (tables_of self.now.world.now) ask.now.dst }
        requires judged { AreJudged (tables_of self.now.world.now) ask.now }
        requires top { let tables = tables_of self.now.world.now in
            IsFirstRefused tables self.now.assume None
            (source tables ask.now) (target tables ask.now) top.now }
        requires asked { let tables = tables_of self.now.world.now in
            (r leaf : ℕ) → (is_asked asked.old r leaf ≡ true)
            ↔ IsAskedBy tables self.now.assume None (target tables ask.now) top.now r leaf }
        requires made { AreKept (length top.now.word) [] made.old }
        ensures { let tables = tables_of self.now.world.now in
            OnOk result ((entries : Listed EntryValue)
            × IsRefutationOf tables ask.now (record { top = top.now; entries = entries })
            × AreKept (length top.now.word) entries made.new) }
    {
        let pairs = pairs_in_order(self.alloc, self.world, self.compat)?;
        for pair in pairs.as_slice() {
            if asked.has(pair.source, pair.target) {
                let entry = self.entry(pair, asked)?;
                made.add(entry)?;
            }
        }
        Ok(())
    }

    /// The entry for a pair; what it asks for is asked for too.
    fn entry(&self, pair: &Failing, asked: &mut Asked) -> Result<Entry, Memory>
        requires making { IsMaking self.now }
        requires judged { let tables = tables_of self.now.world.now in
            AreJudgedPair tables pair.now.source.0 pair.now.target.0 }
        requires fails { let tables = tables_of self.now.world.now in
            FailsFirstAt tables self.now.assume pair.now.source.0 pair.now.target.0 pair.now.depth }
        ensures chosen { let tables = tables_of self.now.world.now in
            IfOk result (IsChosenEntry tables self.now.assume) }
        ensures pair { IfOk result (λ entry. failing_of entry ≡ pair.now) }
        ensures asks { (ask : Question) → ask.assume ≡ self.now.assume
            → IfOk result (AsksMore (tables_of self.now.world.now) ask asked.old asked.new) }
    {
        let (source, target) = (pair.source, pair.target);
        let (Some(s), Some(t)) = (
            self.world.refs.get(source.0 as usize),
            self.world.refs.get(target.0 as usize),
        ) else {
            unreachable!();
        };
        let proof = self.proof(pair.depth, source, target, s, t)?;
        self.ask_proof(pair.depth, &proof, s, t, asked)?;
        Ok(Entry {
            source,
            target,
            depth: pair.depth,
            proof,
        })
    }
}
