//! What is wrong with a word.
use digits::DigitError;
use thiserror::Error;

/// Why a word does not say the bytes that were asked for. It is printed as `seal` says it, but that of `NoRoom` `seal`
/// says how many bytes there may be.
#[derive(Clone, Copy, Debug, PartialEq, Eq, Error)]
pub enum WordError {
    /// The word has no byte in it: where no bytes are meant, `-` says so.
    #[error("nothing, where - says none")]
    Nothing,
    /// One of its bytes is no lowercase digit.
    #[error("a byte is not 0-9 or a-f (5)")]
    NotDigit,
    /// Its digits are of an odd number.
    #[error("odd number of digits (6)")]
    Odd,
    /// It says more bytes than there is room for: of `bytes_of` alone.
    #[error("too long")]
    NoRoom,
    /// It says fewer or more than sixteen bytes: of `sixteen_of` alone.
    #[error("not 16 bytes")]
    NotSixteen,
}

impl WordError {
    ghost use Rattle.std.specs.Prelude.{◌≡◌};
    ghost use Rattle.lines.specs.WordNumber.{number_of};

    /// Its number: 5 or 6, which are a refusal's, or one of 253 to 255, which no refusal has.
    // By a match: with discriminants two equal numbers would be the compiler's to refuse, and not the promise's.
    pub fn number(self) -> u8
        ensures { result ≡ number_of self }
    {
        match self {
            WordError::Nothing => 254,
            WordError::NotDigit => 5,
            WordError::Odd => 6,
            WordError::NoRoom => 255,
            WordError::NotSixteen => 253,
        }
    }
}

impl From<DigitError> for WordError {
    ghost use Rattle.std.specs.Prelude.{◌≡◌, Err};
    ghost use Rattle.digits.specs.Promise.{number};
    ghost use Rattle.lines.specs.WordNumber.{number_of};

    ghost from_gives = { λ d e. number_of e ≡ number (Err d) };

    fn from(e: DigitError) -> WordError {
        match e {
            DigitError::NotDigit(_) => WordError::NotDigit,
            DigitError::Odd => WordError::Odd,
            DigitError::NoRoom => WordError::NoRoom,
        }
    }
}
