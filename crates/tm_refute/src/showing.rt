//! The cells that a piece shows.
ghost use Rattle.std.specs.Prelude.{◌≡◌, IfOk};
ghost use Rattle.tm_base.specs.Tables.{expanded_in};
ghost use Rattle.tm_base.specs.Worlds.{tables_of};
ghost use Rattle.tm_layout.specs.Made.{IsMadeFor};
ghost use Rattle.tm_layout.specs.LaidOut.{IsLaidOut};
ghost use Rattle.tm_refute.specs.Chosen.{shown};

use crate::fitted::fitted;
use crate::refutation::Piece;
use std::alloc::Global;
use tm_base::{Cell, Ground, Memory, World};
use tm_layout::Layouts;

/// The cells that a piece shows to a type: the word in as many bytes as the type has, up to the piece's place.
pub fn cells_shown(
    alloc: Global,
    world: &World,
    layouts: &Layouts,
    t: &Ground,
    piece: &Piece,
) -> Result<Vec<Cell>, Memory>
    requires made { IsMadeFor (tables_of world.now) layouts.now }
    requires has { IsLaidOut (tables_of world.now) t.now }
    ensures { IfOk result (λ cells.
        cells.items ≡ shown (expanded_in (tables_of world.now) t.now) piece.now) }
{
    let Ok(layout) = layouts.of(t) else {
        unreachable!();
    };
    let count = (layout.size as usize).min(piece.offset as usize + 1);
    fitted(alloc, piece.word.as_slice(), count)
}
