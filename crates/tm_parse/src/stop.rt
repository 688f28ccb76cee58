ghost use Rattle.std.specs.Prelude.{◌≡◌};
ghost use Rattle.tm_parse.specs.declared.stop.Stop.TheVariants as stop_is;

use tm_base::{LimitKind, Memory};

/// Why nothing was read: no memory, a terminal that doesn't go on, or one that passes a limit. The reader
/// stands at that terminal.
#[derive(Clone, Copy)]
pub enum Stop {
    Memory,
    Stuck,
    Passed(LimitKind),
}

impl From<Memory> for Stop {
    ghost from_gives = { λ _ stop. stop ≡ stop_is.Memory };

    fn from(_memory: Memory) -> Stop {
        Stop::Memory
    }
}
