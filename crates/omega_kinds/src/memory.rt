// Want of memory, which every crate keeps apart from all other refusals.
use std::alloc::{AllocError, AllocFailed};

/// Want of memory: the allocator refused a request.
#[derive(Clone, Copy, Debug, PartialEq, Eq)]
pub struct Mem;

impl From<AllocError> for Mem {
    fn from(_refused: AllocError) -> Mem {
        Mem
    }
}

impl<T: Drop> From<AllocFailed<T>> for Mem {
    fn from(_refused: AllocFailed<T>) -> Mem {
        Mem
    }
}
