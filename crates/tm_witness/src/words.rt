//! What a word becomes in a type of another size, and the order of words.
ghost use Rattle.std.specs.Prelude.{◌≡◌, IfOk};
ghost use Rattle.tm_base.specs.Cells.{fit};
ghost use Rattle.tm_base.specs.Orders.{cell_less, word_less};

use std::alloc::Global;
use tm_base::{Cell, List, Memory, Word};

/// What so many bytes hold where the word was written: its first cells, and uninitialised ones behind its
/// end. `Memory`: there wasn't enough memory.
pub fn fit(alloc: Global, word: &Word, size: u32) -> Result<Word, Memory>
    ensures fit { IfOk result (λ fitted. fitted ≡ fit word.now size) }
{
    let mut fitted = List::new(alloc);
    for place in 0..size {
        let cell = word.get(place as usize).copied();
        fitted.add(cell.unwrap_or(Cell::Uninit))?;
    }
    Ok(fitted)
}

/// Whether the first word stands before the second: the first cell in which they differ decides, or else the
/// first is shorter. Initialised bytes stand before uninitialised ones, and these before references, which
/// go by number and then by place.
pub fn less(a: &Word, b: &Word) -> bool
    ensures order { result ≡ word_less a.now b.now }
{
    for (first, second) in a.as_slice().iter().zip(b.as_slice()) {
        if cell_less(*first, *second) {
            return true;
        }
        if cell_less(*second, *first) {
            return false;
        }
    }
    a.len() < b.len()
}

/// Whether the first cell stands before the second.
fn cell_less(first: Cell, second: Cell) -> bool
    ensures { result ≡ cell_less first second }
{
    match (first, second) {
        (Cell::Byte(a), Cell::Byte(b)) => a < b,
        (Cell::Byte(_), _) => true,
        (Cell::Uninit, Cell::Ptr(_, _)) => true,
        (Cell::Ptr(r, j), Cell::Ptr(t, k)) => r.0 < t.0 || (r.0 == t.0 && j < k),
        _ => false,
    }
}
