//! What pieces and proofs ask for.
ghost use Rattle.std.specs.Prelude.{◌≡◌, ℕ, ◌<◌, ◌||◌, OnOk, false, length, slice_index_or};
ghost use Rattle.std.specs.List.{list_any};
ghost use Rattle.tm_base.specs.Tables.{expanded_in};
ghost use Rattle.tm_base.specs.Worlds.{tables_of};
ghost use Rattle.tm_layout.specs.LaidOut.{IsLaidOut};
ghost use Rattle.tm_refute.specs.Asking.{AsksAll, AsksLeaves, AsksToo, HasSource, ProofAsksToo, is_of};
ghost use Rattle.tm_refute.specs.Chosen.{IsChosenProof};
ghost use Rattle.tm_refute.specs.Making.{IsMaking};

use crate::refutation::{Piece, Proof};
use crate::refuting::asked::Asked;
use crate::refuting::maker::Maker;
use crate::showing::cells_shown;
use crate::standing::stands;
use tm_base::{Cell, Ground, Memory, RefId, RefRow};
use tm_refs::leaves_of;

impl Maker<'_> {
    /// Asks for what a piece asks for: each reference in the cells that it shows, with each leaf of the type
    /// with which it fails below the limit.
    pub fn ask(
        &self,
        limit: Option<u32>,
        t: &Ground,
        piece: &Piece,
        asked: &mut Asked,
    ) -> Result<(), Memory>
        requires making { IsMaking self.now }
        requires has { IsLaidOut (tables_of self.now.world.now) t.now }
        requires value { HasSource (tables_of self.now.world.now) piece.now.word }
        ensures { let tables = tables_of self.now.world.now in
            OnOk result (AsksToo tables self.now.assume limit
            (expanded_in tables t.now) piece.now asked.old asked.new) }
    {
        let shown = cells_shown(self.alloc, self.world, self.layouts, t, piece)?;
        let occurring = occurring(shown.as_slice());
        let leaves = leaves_of(self.world, t);
        self.ask_all(limit, &occurring, &leaves, asked)
    }

    /// Asks for the pairs of a reference that occurs and a leaf that fail below the limit.
    fn ask_all(
        &self,
        limit: Option<u32>,
        occurring: &[bool],
        leaves: &[bool],
        asked: &mut Asked,
    ) -> Result<(), Memory>
        requires occurring { length occurring.now ≡ 64 }
        requires leaves { length leaves.now ≡ 64 }
        ensures { OnOk result (AsksAll self.now.compat.now limit occurring.now leaves.now 64
            asked.old asked.new) }
    {
        for r in 0..64 {
            if occurring[r as usize] {
                self.ask_leaves(limit, RefId(r), leaves, asked)?;
            }
        }
        Ok(())
    }

    /// Asks for the pairs of a reference and each leaf with which it fails below the limit.
    fn ask_leaves(
        &self,
        limit: Option<u32>,
        source: RefId,
        leaves: &[bool],
        asked: &mut Asked,
    ) -> Result<(), Memory>
        requires room { length leaves.now ≡ 64 }
        ensures { OnOk result (AsksLeaves self.now.compat.now limit source.0 leaves.now 64
            asked.old asked.new) }
    {
        for leaf in 0..64 {
            let target = RefId(leaf);
            let fails = !stands(limit, self.compat.depth(source, target));
            if leaves[leaf as usize] && fails {
                asked.add(source, target)?;
            }
        }
        Ok(())
    }

    /// Asks for what the proof of two references at a depth asks for.
    pub fn ask_proof(
        &self,
        depth: u32,
        proof: &Proof,
        s: &RefRow,
        t: &RefRow,
        asked: &mut Asked,
    ) -> Result<(), Memory>
        requires making { IsMaking self.now }
        requires source { IsLaidOut (tables_of self.now.world.now) s.now.pointee }
        requires target { IsLaidOut (tables_of self.now.world.now) t.now.pointee }
        requires is { let tables = tables_of self.now.world.now in
            IsChosenProof tables self.now.assume depth proof.now s.now t.now }
        ensures { let tables = tables_of self.now.world.now in
            OnOk result (ProofAsksToo tables self.now.assume depth proof.now s.now t.now
            asked.old asked.new) }
    {
        match proof {
            Proof::Local(_) => Ok(()),
            Proof::Forward(piece) => self.ask(Some(depth), &t.pointee, piece, asked),
            Proof::Reverse(piece) => self.ask(Some(depth), &s.pointee, piece, asked),
        }
    }
}

/// Which references occur in some cells, by their numbers.
fn occurring(cells: &[Cell]) -> [bool; 64]
    ensures { (r : ℕ) → r < 64
        → slice_index_or result r false ≡ list_any (λ cell. is_of cell r) cells.now }
{
    let mut found = [false; 64];
    for cell in cells {
        mark(cell, &mut found);
    }
    found
}

/// Marks the reference that a cell is of.
fn mark(cell: &Cell, found: &mut [bool])
    requires room { length found.old ≡ 64 }
    ensures room { length found.new ≡ 64 }
    ensures marked { (r : ℕ) → r < 64 → slice_index_or found.new r false
        ≡ (slice_index_or found.old r false || is_of cell.now r) }
{
    match *cell {
        Cell::Ptr(id, _) => {
            if id.0 < 64 {
                found[id.0 as usize] = true;
            }
        }
        Cell::Byte(_) | Cell::Uninit => {}
    }
}
