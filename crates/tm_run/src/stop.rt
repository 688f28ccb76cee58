ghost use Rattle.std.specs.Prelude.{◌≡◌};
ghost use Rattle.tm_run.specs.Examined.{stop_of, stop_of_refuting};
ghost use Rattle.tm_run.specs.declared.stop.Stop.TheVariants as stop_is;

use std::alloc::AllocError;
use tm_base::{LimitKind, Memory};
use tm_ground::GroundErr;
use tm_refute::RefuteErr;
use tm_report::FileFault;

/// Why there is no report: the file's fault, or memory was wanting.
#[derive(Clone, Copy, Debug)]
pub enum Stop {
    Fault(FileFault),
    Memory,
}

impl From<Memory> for Stop {
    ghost from_gives = { λ _ stop. stop ≡ stop_is.Memory };

    fn from(_: Memory) -> Stop {
        Stop::Memory
    }
}

impl From<AllocError> for Stop {
    ghost from_gives = { λ _ stop. stop ≡ stop_is.Memory };

    fn from(_: AllocError) -> Stop {
        Stop::Memory
    }
}

impl From<GroundErr> for Stop {
    ghost from_gives = { λ err stop. stop ≡ stop_of err };

    fn from(err: GroundErr) -> Stop {
        let kind = match err {
            GroundErr::TooManyTypes => LimitKind::NamedTypes,
            GroundErr::TooManyNodes => LimitKind::ClosedNodes,
            GroundErr::TooManyRefs => LimitKind::References,
            GroundErr::TooDeep => LimitKind::Depth,
            GroundErr::Memory => return Stop::Memory,
        };
        Stop::Fault(FileFault::Passed(kind, None))
    }
}

impl From<RefuteErr> for Stop {
    ghost from_gives = { λ err stop. stop ≡ stop_of_refuting err };

    fn from(err: RefuteErr) -> Stop {
        match err {
            RefuteErr::TooLong => {
                Stop::Fault(FileFault::Passed(LimitKind::RefutationCells, None))
            }
            RefuteErr::Memory => Stop::Memory,
        }
    }
}
