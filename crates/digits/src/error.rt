// Why digits were not read or written.
use thiserror::Error;

/// Why a text is not read, or bytes are not written: in the order of the variants, the first that holds.
#[derive(Clone, Copy, Debug, PartialEq, Eq, Error)]
pub enum DigitError {
    /// The index of the first byte that is no digit.
    #[error("byte {0} is no digit")]
    NotDigit(usize),
    /// All are digits, and the last has no partner.
    #[error("an odd number of digits")]
    Odd,
    /// The buffer is too small for what was to be stored.
    #[error("the buffer is too small")]
    NoRoom,
}
