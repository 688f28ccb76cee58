//! Words as so many bytes hold them.
ghost use Rattle.std.specs.Prelude.{◌≡◌, IfOk};
ghost use Rattle.tm_base.specs.Cells.{fit};

use std::alloc::Global;
use tm_base::{Cell, Memory};

/// What so many bytes hold where the word was written: its first cells, and uninitialised ones behind its
/// end.
pub fn fitted(alloc: Global, word: &[Cell], count: usize) -> Result<Vec<Cell>, Memory>
    ensures { IfOk result (λ cells. cells.items ≡ fit word.now count) }
{
    let mut cells = Vec::new(alloc);
    cells.extend_from_slice(&word[..count.min(word.len())])?;
    cells.resize(count, Cell::Uninit)?;
    Ok(cells)
}
