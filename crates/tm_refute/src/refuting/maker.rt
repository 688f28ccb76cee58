//! The pieces and the proofs of a refutation.
ghost use Rattle.std.specs.Prelude.{◌≡◌, ◌<◌, IfOk, Some, slice_get};
ghost use Rattle.tm_base.specs.Reaches.{IsJudged};
ghost use Rattle.tm_base.specs.Tables.{expanded_in};
ghost use Rattle.tm_base.specs.Worlds.{IsTypeOver, tables_of};
ghost use Rattle.tm_refs.specs.Local.{AreJudged};
ghost use Rattle.tm_refs.specs.Solved.{FailsFirstAt};
ghost use Rattle.tm_refute.specs.Chosen.{IsChosenProof};
ghost use Rattle.tm_refute.specs.Making.{IsMaking, IsPieceAnswer, IsRefusedWord};

use crate::refutation::{Piece, Proof};
use crate::refuting::below::Below;
use std::alloc::Global;
use std::marker::Brand;
use std::sync::ledger::{Blank, Ledger};
use tm_auto::Auto;
use tm_base::{Assume, Ground, Memory, RefId, RefRow, RefTest, Steps, World};
use tm_layout::Layouts;
use tm_refs::{Compat, automaton_of};
use tm_walk::{Found, first_refusal};

/// What the pieces and the proofs of a refutation are made from.
#[derive(Drop)]
pub struct Maker<'a> {
    pub alloc: Global,
    pub world: &'a World,
    pub layouts: &'a Layouts,
    pub compat: &'a Compat,
    /// What the question takes for granted.
    pub assume: Assume,
}

impl Maker<'_> {
    /// The value of the source `s` that the target `t` refuses first, for all that is said below the limit;
    /// `None` where each value fits.
    pub fn piece(&self, limit: Option<u32>, s: &Ground, t: &Ground) -> Result<Option<Piece>, Memory>
        requires making { IsMaking self.now }
        requires source { IsTypeOver (tables_of self.now.world.now) s.now }
        requires target { IsTypeOver (tables_of self.now.world.now) t.now }
        requires source_judged { IsJudged (tables_of self.now.world.now) s.now }
        requires target_judged { IsJudged (tables_of self.now.world.now) t.now }
        ensures { let tables = tables_of self.now.world.now in
            IfOk result (IsPieceAnswer tables self.now.assume limit
            (expanded_in tables s.now) (expanded_in tables t.now)) }
    {
        let (alloc, world, layouts) = (self.alloc, self.world, self.layouts);
        let src = automaton_of(alloc, world, layouts, s, true)?;
        let dst = automaton_of(alloc, world, layouts, t, self.assume.safety)?;
        let refs = Below {
            compat: self.compat,
            limit,
        };
        refused::<Below<'_>, Brand>(alloc, &src, &dst, &refs, Blank::new(1))
    }

    /// Why two references with judged pointees fail first at a depth.
    pub fn proof(
        &self,
        depth: u32,
        source: RefId,
        target: RefId,
        s: &RefRow,
        t: &RefRow,
    ) -> Result<Proof, Memory>
        requires making { IsMaking self.now }
        requires source_row { slice_get self.now.world.now.refs source.0 ≡ Some s.now }
        requires target_row { slice_get self.now.world.now.refs target.0 ≡ Some t.now }
        requires judged { AreJudged (tables_of self.now.world.now) s.now t.now }
        requires fails { let tables = tables_of self.now.world.now in
            FailsFirstAt tables self.now.assume source.0 target.0 depth }
        ensures { let tables = tables_of self.now.world.now in
            IfOk result (λ proof. IsChosenProof tables self.now.assume depth proof s.now t.now) }
    {
        if depth == 0 {
            match self.compat.why(source, target) {
                Some(rule) => return Ok(Proof::Local(rule)),
                None => unreachable!(),
            }
        }
        if let Some(piece) = self.piece(Some(depth), &s.pointee, &t.pointee)? {
            return Ok(Proof::Forward(piece));
        }
        match self.piece(Some(depth), &t.pointee, &s.pointee)? {
            Some(piece) => Ok(Proof::Reverse(piece)),
            None => unreachable!(),
        }
    }
}

/// The word of the source that the target refuses first; the steps are counted by a counter of their own.
fn refused<M: RefTest, L: Ledger>(
    alloc: Global,
    src: &Auto,
    dst: &Auto,
    refs: &M,
    blank: Blank,
) -> Result<Option<Piece>, Memory>
    requires name { blank.name ≡ L.name }
    requires parts { blank.parts ≡ L.parts }
    requires some { 0 < L.parts }
    ensures { IfOk result (IsRefusedWord (M.test refs.now) src.now dst.now) }
{
    let mut steps = Steps::<L>::new(blank);
    match first_refusal(alloc, src, dst, refs, &mut steps)? {
        None => Ok(None),
        Some(Found { word, offset }) => Ok(Some(Piece { word, offset })),
    }
}
