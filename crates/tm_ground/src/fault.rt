ghost use Rattle.std.specs.Prelude.{◌≡◌};
ghost use Rattle.tm_ground.specs.declared.fault.GroundErr.TheVariants as ground_err;

use tm_base::Memory;

/// Why a file's closed types can't be given.
///
/// `TooManyTypes`: more than 1,024 named types of at most 256 nodes occur. `TooManyNodes`: not so, and some type
/// that occurs has more than 256 nodes. `TooManyRefs`: neither, and more than 64 reference types occur.
/// `TooDeep`: none of these, and some type that occurs is more than 64 types deep by value. `Memory`: there
/// wasn't enough memory.
#[derive(Clone, Copy, PartialEq, Eq, Debug)]
pub enum GroundErr {
    TooManyTypes,
    TooManyNodes,
    TooManyRefs,
    TooDeep,
    Memory,
}

impl From<Memory> for GroundErr {
    ghost from_gives = { λ _ error. error ≡ ground_err.Memory };

    fn from(_memory: Memory) -> GroundErr {
        GroundErr::Memory
    }
}
