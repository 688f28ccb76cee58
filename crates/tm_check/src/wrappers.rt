//! What wrappers take besides the values of what they hold.
ghost use Rattle.std.specs.Prelude.{◌≡◌};
ghost use Rattle.std.specs.List.{list_all};
ghost use Rattle.tm_check.specs.Begins.{is_zero, takes_besides};
ghost use Rattle.tm_check.specs.Runs.{word_of};

use crate::run::Run;
use tm_base::{Cell, Wrapper};

/// Whether each cell is the byte 00.
fn are_zero(cells: &[Cell]) -> bool
    ensures { result ≡ list_all is_zero cells.now }
{
    cells.iter().all(|cell| *cell == Cell::Byte(0))
}

/// Whether cells begin what a wrapper round a type of so many bytes takes besides the values of that type: bytes 00
/// under `Option`, and any bytes but a reference's under `MaybeUninit`.
pub fn takes_besides(wrapper: Wrapper, size: u32, run: Run<'_>) -> bool
    ensures { result ≡ takes_besides wrapper size (word_of run.entry) }
{
    match wrapper {
        Wrapper::Option => run.is_within(size as usize) && run.uninit == 0 && are_zero(run.told),
        Wrapper::MaybeUninit => run.is_within(size as usize) && run.is_free(),
        _ => false,
    }
}
