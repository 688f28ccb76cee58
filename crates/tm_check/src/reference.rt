//! The cells of references.
ghost use Rattle.std.specs.Prelude.{◌≡◌};
ghost use Rattle.tm_check.specs.Begins.{are_of, ref_begins};
ghost use Rattle.tm_check.specs.Runs.{word_of};

use crate::run::Run;
use tm_base::{Cell, RefId, RefTest};

/// Whether cells are the first bytes of the reference.
fn are_of(cells: &[Cell], id: RefId) -> bool
    ensures { result ≡ are_of id.0 0 cells.now }
{
    for (place, cell) in cells.iter().enumerate() {
        let Cell::Ptr(other, byte) = *cell else {
            return false;
        };
        if other != id || usize::from(byte) != place {
            return false;
        }
    }
    true
}

/// Whether cells begin a reference that the reference type takes, where a reference has so many bytes.
pub fn reference<M: RefTest>(refs: &M, target: RefId, size: u32, run: Run<'_>) -> bool
    ensures { result ≡ ref_begins (M.test refs.now) size target.0 (word_of run.entry) }
{
    if run.is_empty() {
        return true;
    }
    if run.uninit > 0 || !run.is_within(size as usize) {
        return false;
    }
    match run.told {
        [Cell::Ptr(id, _), ..] => refs.holds(*id, target) && are_of(run.told, *id),
        _ => false,
    }
}
