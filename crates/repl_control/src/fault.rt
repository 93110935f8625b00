use thiserror::Error;

/// Bytes that spell no control.
#[derive(Clone, Copy, Debug, PartialEq, Eq, Error)]
#[error("wrong at byte {place}")]
pub struct ControlFault {
    /// The first byte, from 0, of the first field that is wrong; or, where the length is wrong, the lesser of it and
    /// that of a control.
    pub place: u64,
}
