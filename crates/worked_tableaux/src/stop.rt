// Why a test does not end.
use answers::Memory;
use std::alloc::{AllocError, AllocFailed};

/// There was no memory, a step does not fit, or an enumeration was refused.
#[derive(Debug, Drop)]
pub enum Stop {
    Memory,
    Unfit,
    Refused,
}

impl From<Memory> for Stop {
    fn from(_memory: Memory) -> Stop {
        Stop::Memory
    }
}

impl From<AllocError> for Stop {
    fn from(_refused: AllocError) -> Stop {
        Stop::Memory
    }
}

impl<T: Drop> From<AllocFailed<T>> for Stop {
    fn from(_refused: AllocFailed<T>) -> Stop {
        Stop::Memory
    }
}
