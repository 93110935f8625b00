use std::alloc::{AllocError, AllocFailed};

/// Why a row is not judged.
#[derive(Clone, Copy, Debug, PartialEq, Eq)]
pub enum Miss {
    /// There is no such call.
    Call,
    /// These are no words for it.
    Words,
    Memory,
}

/// What a call answers, as text or as bytes.
pub type Answer = Result<Vec<u8>, Miss>;

impl From<AllocError> for Miss {
    fn from(_error: AllocError) -> Miss {
        Miss::Memory
    }
}

impl<T: Drop> From<AllocFailed<T>> for Miss {
    fn from(_error: AllocFailed<T>) -> Miss {
        Miss::Memory
    }
}
