use std::alloc::{AllocError, AllocFailed};

/// There wasn't enough memory.
#[derive(Clone, Copy, PartialEq, Eq, Debug)]
pub struct Memory;

impl From<AllocError> for Memory {
    fn from(_error: AllocError) -> Memory {
        Memory
    }
}

impl<T: Drop> From<AllocFailed<T>> for Memory {
    /// What found no room is dropped.
    fn from(_refused: AllocFailed<T>) -> Memory {
        Memory
    }
}
