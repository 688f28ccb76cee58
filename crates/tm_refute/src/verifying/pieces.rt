//! Whether pieces break two types.
ghost use Rattle.std.specs.Prelude.{◌↔◌, IsTrue, IfOk, All, length};
ghost use Rattle.tm_base.specs.Tables.{expanded_in};
ghost use Rattle.tm_base.specs.Transmutes.{IsSourceWord};
ghost use Rattle.tm_base.specs.Viable.{Viable};
ghost use Rattle.tm_base.specs.Worlds.{tables_of};
ghost use Rattle.tm_layout.specs.LaidOut.{IsLaidOut};
ghost use Rattle.tm_refute.specs.Chosen.{shown};
ghost use Rattle.tm_refute.specs.Ready.{IsReady};
ghost use Rattle.tm_refute.specs.Refutes.{Breaks, IsKnown, Stands};

use crate::refutation::Piece;
use crate::showing::cells_shown;
use crate::standing::Standing;
use crate::verifying::verifier::Verifier;
use tm_base::{Cell, Equal, Ground, Memory};
use tm_check::{valid, viable};

impl Verifier<'_> {
    /// Whether the piece breaks the source `s` and the target `t`, where the pairs of entries with a depth
    /// below the limit fail. `None`: those of all entries.
    pub fn breaks(
        &self,
        limit: Option<u32>,
        s: &Ground,
        t: &Ground,
        piece: &Piece,
    ) -> Result<bool, Memory>
        requires ready { IsReady self.now }
        requires source { IsLaidOut (tables_of self.now.world.now) s.now }
        requires target { IsLaidOut (tables_of self.now.world.now) t.now }
        ensures { let tables = tables_of self.now.world.now in
            IfOk result (λ breaks. IsTrue breaks
            ↔ Breaks tables self.now.assume self.now.entries.now limit
            (expanded_in tables s.now) (expanded_in tables t.now) piece.now) }
    {
        if !self.knows(piece.word.as_slice()) || !self.is_value(s, piece.word.as_slice()) {
            return Ok(false);
        }
        Ok(!self.goes_along(limit, t, piece)?)
    }

    /// Whether the cells name no reference but the world's.
    fn knows(&self, word: &[Cell]) -> bool
        ensures { IsTrue result ↔ All (IsKnown (length self.now.world.now.refs)) word.now }
    {
        let count = self.world.refs.len();
        for cell in word {
            if !is_known(count, *cell) {
                return false;
            }
        }
        true
    }

    /// Whether the cells are a value of a source.
    fn is_value(&self, s: &Ground, word: &[Cell]) -> bool
        requires ready { IsReady self.now }
        requires source { IsLaidOut (tables_of self.now.world.now) s.now }
        ensures { let tables = tables_of self.now.world.now in
            IsTrue result ↔ IsSourceWord (expanded_in tables s.now) word.now }
    {
        valid(self.world, self.layouts, &Equal, true, s, word)
    }

    /// Whether the target goes along with the piece's word, fitted, up to its place.
    fn goes_along(&self, limit: Option<u32>, t: &Ground, piece: &Piece) -> Result<bool, Memory>
        requires ready { IsReady self.now }
        requires target { IsLaidOut (tables_of self.now.world.now) t.now }
        ensures { let t = expanded_in (tables_of self.now.world.now) t.now in
            IfOk result (λ goes. IsTrue goes
            ↔ Viable (Stands self.now.entries.now limit) self.now.assume.safety t
            (shown t piece.now)) }
    {
        let shown = cells_shown(self.alloc, self.world, self.layouts, t, piece)?;
        let refs = Standing {
            depths: &self.depths,
            limit,
        };
        Ok(viable(
            self.world,
            self.layouts,
            &refs,
            self.assume.safety,
            t,
            shown.as_slice(),
        ))
    }
}

/// Whether a cell names no reference but one of the first so many.
fn is_known(count: usize, cell: Cell) -> bool
    ensures { IsTrue result ↔ IsKnown count cell }
{
    match cell {
        Cell::Byte(_) | Cell::Uninit => true,
        Cell::Ptr(id, _) => (id.0 as usize) < count,
    }
}
