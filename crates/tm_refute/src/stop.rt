ghost use Rattle.std.specs.Prelude.{◌≡◌};
ghost use Rattle.tm_refute.specs.declared.stop.RefuteErr.TheVariants as refute_err;
ghost use Rattle.tm_refute.specs.declared.stop.Stop.TheVariants as stop_is;
ghost use Rattle.tm_refute.specs.declared.stop.TextErr.TheVariants as text_err;

use tm_base::Memory;

/// Why something wasn't read.
#[derive(Clone, Copy, Debug, Drop)]
pub enum Stop {
    /// It isn't in its form.
    Form,
    /// There wasn't enough memory.
    Memory,
}

impl From<Memory> for Stop {
    ghost from_gives = { λ _ stop. stop ≡ stop_is.Memory };

    fn from(_memory: Memory) -> Stop {
        Stop::Memory
    }
}

/// Why a text of a refutation wasn't read.
#[derive(Clone, Copy, PartialEq, Eq, Debug, Drop)]
pub enum TextErr {
    /// The line, from 1, isn't in the form of its place, or isn't ended; all before it are.
    At(u32),
    /// There wasn't enough memory.
    Memory,
}

impl From<Memory> for TextErr {
    ghost from_gives = { λ _ error. error ≡ text_err.Memory };

    fn from(_memory: Memory) -> TextErr {
        TextErr::Memory
    }
}

/// Why there is no refutation of a question that may have one.
#[derive(Clone, Copy, PartialEq, Eq, Debug, Drop)]
pub enum RefuteErr {
    /// Its words have more than 16,777,216 cells together.
    TooLong,
    /// There wasn't enough memory.
    Memory,
}

impl From<Memory> for RefuteErr {
    ghost from_gives = { λ _ error. error ≡ refute_err.Memory };

    fn from(_memory: Memory) -> RefuteErr {
        RefuteErr::Memory
    }
}
