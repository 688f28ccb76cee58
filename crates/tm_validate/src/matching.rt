//! Bytes against a type.
ghost use Rattle.std.specs.Prelude.{◌≡◌, ◌≤◌, ℕ, Bool, IfOk, false, length};
ghost use Rattle.tm_base.specs.Cells.{fit};
ghost use Rattle.tm_base.specs.Faults.{has_no_layout};
ghost use Rattle.tm_base.specs.Tables.{expanded_in};
ghost use Rattle.tm_base.specs.Transmutes.{holds};
ghost use Rattle.tm_base.specs.Worlds.{IsTypeOver, tables_of};
ghost use Rattle.tm_layout.specs.Made.{IsMadeFor};
ghost use Rattle.tm_validate.specs.Against.{AreTo, bytes_of};

use crate::refusal::Target;
use std::alloc::Global;
use tm_base::{Cell, Ground, Memory, World};
use tm_layout::Layouts;

/// What bytes are to a type, where as many bytes as the type has are taken of them, or uninitialised bytes follow.
#[derive(Clone, Copy, PartialEq, Eq, Debug)]
pub enum Fits {
    /// They are one of its values.
    Valid,
    /// The type has no value.
    NoWord,
    /// The type has values. So many bytes, counted from the first, begin one, and with the next byte they don't.
    RefusedAt(u32),
}

/// What some bytes are to a type, whichever references it takes. Private types have their values only where they
/// are kept.
///
/// `Memory`: there wasn't enough memory.
pub fn against(
    alloc: Global,
    world: &World,
    layouts: &Layouts,
    keep_private: bool,
    g: &Ground,
    bytes: &[u8],
) -> Result<Fits, Memory>
    requires made { IsMadeFor (tables_of world.now) layouts.now }
    requires over { IsTypeOver (tables_of world.now) g.now }
    requires judged { has_no_layout (expanded_in (tables_of world.now) g.now) ≡ false }
    requires few { length bytes.now ≤ 65536 }
    ensures exact { (test : ℕ → ℕ → Bool) → let t = expanded_in (tables_of world.now) g.now in
        IfOk result (AreTo (holds test) keep_private t bytes.now) }
{
    let size = match layouts.of(g) {
        Ok(layout) => layout.size,
        Err(_) => unreachable!(),
    };
    let cells = fitted(alloc, bytes, size)?;
    let target = Target {
        world,
        layouts,
        keep_private,
        g,
    };
    Ok(target.match_cells(cells.as_slice(), size))
}

/// What so many bytes hold where these were written.
fn fitted(alloc: Global, bytes: &[u8], size: u32) -> Result<Vec<Cell>, Memory>
    ensures { IfOk result (λ cells. cells.items ≡ fit (bytes_of bytes.now) size) }
{
    let mut cells = Vec::with_capacity(alloc, size as usize)?;
    for place in 0..size {
        let cell = match bytes.get(place as usize) {
            Some(byte) => Cell::Byte(*byte),
            None => Cell::Uninit,
        };
        cells.push(cell)?;
    }
    Ok(cells)
}
