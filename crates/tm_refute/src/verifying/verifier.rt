//! Whether the entries of a refutation hold.
ghost use Rattle.std.specs.Prelude.{◌≡◌, ◌↔◌, IsTrue, IfOk, Some, All, slice_get};
ghost use Rattle.tm_base.specs.Compatible.{IsLocalFault};
ghost use Rattle.tm_base.specs.Reaches.{IsJudged};
ghost use Rattle.tm_base.specs.Tables.{OnRows};
ghost use Rattle.tm_base.specs.Worlds.{tables_of};
ghost use Rattle.tm_refs.specs.Local.{AreJudged};
ghost use Rattle.tm_refute.specs.Ready.{IsReady};
ghost use Rattle.tm_refute.specs.Refutes.{Holds, IsShown};

use crate::depths::Depths;
use crate::judged::Judged;
use crate::refutation::{Entry, Proof};
use std::alloc::Global;
use tm_base::{Assume, LocalRule, Memory, RefRow, World};
use tm_layout::Layouts;
use tm_refs::local;
use tm_region::Order;

/// What the pieces and the entries of a refutation are verified by.
#[derive(Drop)]
pub struct Verifier<'a> {
    pub alloc: Global,
    pub world: &'a World,
    pub layouts: &'a Layouts,
    pub order: &'a Order,
    /// What the question takes for granted.
    pub assume: Assume,
    /// The refutation's entries.
    pub entries: &'a [Entry],
    pub judged: Judged,
    pub depths: Depths,
}

impl Verifier<'_> {
    /// Whether each entry holds.
    pub fn all_hold(&self) -> Result<bool, Memory>
        requires { IsReady self.now }
        ensures { let tables = tables_of self.now.world.now in
            IfOk result (λ all. IsTrue all
            ↔ All (Holds tables self.now.assume self.now.entries.now) self.now.entries.now) }
    {
        for entry in self.entries {
            if !self.holds(entry)? {
                return Ok(false);
            }
        }
        Ok(true)
    }

    /// Whether an entry names references of the world with judged pointees, and they fail as it says.
    fn holds(&self, entry: &Entry) -> Result<bool, Memory>
        requires { IsReady self.now }
        ensures { let tables = tables_of self.now.world.now in
            IfOk result (λ holds. IsTrue holds
            ↔ Holds tables self.now.assume self.now.entries.now entry.now) }
    {
        let Some(source) = self.world.refs.get(entry.source.0 as usize) else {
            return Ok(false);
        };
        let Some(target) = self.world.refs.get(entry.target.0 as usize) else {
            return Ok(false);
        };
        if !self.judged.has(entry.source) || !self.judged.has(entry.target) {
            return Ok(false);
        }
        self.is_shown(entry, source, target)
    }

    /// Whether the references of an entry fail as it says.
    fn is_shown(&self, entry: &Entry, source: &RefRow, target: &RefRow) -> Result<bool, Memory>
        requires ready { IsReady self.now }
        requires source { slice_get self.now.world.now.refs entry.now.source.0 ≡ Some source.now }
        requires target { slice_get self.now.world.now.refs entry.now.target.0 ≡ Some target.now }
        requires source_judged { IsJudged (tables_of self.now.world.now) source.now.pointee }
        requires target_judged { IsJudged (tables_of self.now.world.now) target.now.pointee }
        ensures { let tables = tables_of self.now.world.now in
            IfOk result (λ shown. IsTrue shown
            ↔ IsShown tables self.now.assume self.now.entries.now
            entry.now.depth entry.now.proof source.now target.now) }
    {
        match &entry.proof {
            Proof::Local(rule) => { Ok(entry.depth == 0 && self.breaks_locally(entry, *rule)) }
            Proof::Forward(piece) => {
                if entry.depth == 0 {
                    return Ok(false);
                }
                self.breaks(Some(entry.depth), &source.pointee, &target.pointee, piece)
            }
            Proof::Reverse(piece) => {
                let writable = target.mutable;
                if entry.depth == 0 || !writable {
                    return Ok(false);
                }
                self.breaks(Some(entry.depth), &target.pointee, &source.pointee, piece)
            }
        }
    }

    /// Whether this is the first local rule that the references of an entry break.
    fn breaks_locally(&self, entry: &Entry, rule: LocalRule) -> bool
        requires ready { IsReady self.now }
        requires judged { let row = slice_get self.now.world.now.refs in
            OnRows (row entry.now.source.0) (row entry.now.target.0)
            (AreJudged (tables_of self.now.world.now)) }
        ensures { let row = slice_get self.now.world.now.refs in
            OnRows (row entry.now.source.0) (row entry.now.target.0) (λ r t. IsTrue result
            ↔ IsLocalFault (tables_of self.now.world.now) self.now.assume r t rule) }
    {
        let (source, target) = (entry.source, entry.target);
        match local(
            self.world,
            self.layouts,
            self.order,
            self.assume,
            source,
            target,
        ) {
            Ok(()) => false,
            Err(first) => first == rule,
        }
    }
}
