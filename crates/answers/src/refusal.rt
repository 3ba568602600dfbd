// Why a call refuses, and the number that the table has for it.
ghost use Rattle.std.specs.Prelude.{◌≡◌};
ghost use Rattle.answers.specs.Refusal.{number_of, answer_number, Numbers};

use thiserror::Error;

/// The number of an answer that refuses nothing: done, opened.
pub const DONE: u8 = 0;

/// Why a call refuses: as its discriminant, the number that the table has for it (specs/Numbers, row by row).
#[derive(Clone, Copy, Debug, PartialEq, Eq, Error)]
pub enum Refusal {
    #[error("the tag differs")]
    TagDiffers = 1,
    #[error("data or message has 2^61 bytes or more")]
    TooLong = 2,
    #[error("the buffers differ in length")]
    OtherLength = 3,
    #[error("the line is too long")]
    LineTooLong = 4,
    #[error("a byte is no digit")]
    NotDigit = 5,
    #[error("an odd number of digits")]
    OddDigits = 6,
    #[error("the frame is too short")]
    FrameTooShort = 7,
    #[error("the data is too long")]
    DataTooLong = 8,
    #[error("the data ends past the frame")]
    DataPastFrame = 9,
    #[error("the message is too long")]
    MessageTooLong = 10,
    #[error("no newline before the end")]
    NoNewline = 11,
    #[error("the place lies beyond the end")]
    PlaceBeyond = 12,
    #[error("the frame buffer is too small")]
    BufferTooSmall = 13,
    #[error("the end of the journal")]
    End = 14,
    #[error("the line buffer is too small")]
    LineTooSmall = 15,
    #[error("a roll mark")]
    RollMark = 16,
    #[error("the frame area does not fit the slots")]
    AreaDiffers = 21,
    #[error("the nonce is all zeros")]
    ZeroNonce = 22,
    #[error("data after a message part")]
    DataLate = 23,
    #[error("a call after the tag")]
    RecordClosed = 24,
}

/// A number that no refusal has.
#[derive(Clone, Copy, Debug, PartialEq, Eq, Error)]
#[error("no refusal has the number {0}")]
pub struct UnknownNumber(pub u8);

impl Refusal {
    /// The refusal's number in the table: from 1 to 24, and never that of `DONE`.
    // A method and no `From`: docs/PROMISES.md names it, and what may not change has it public.
    pub fn number(self) -> u8
        ensures { result ≡ number_of self }
    {
        self as u8
    }
}

/// The number of an answer, for C and for a listing: `DONE`, or that of its refusal.
pub fn number<T>(answer: &Result<T, Refusal>) -> u8
    ensures { result ≡ answer_number answer.now }
{
    match answer {
        Ok(_) => DONE,
        Err(refusal) => refusal.number(),
    }
}

impl TryFrom<u8> for Refusal {
    type Error = UnknownNumber;

    ghost try_from_gives = { Numbers };

    /// The refusal that has the number, or the number itself, where none has it.
    // Arm by arm: Rust has no cast from a number to an enum.
    fn try_from(number: u8) -> Result<Self, UnknownNumber> {
        match number {
            1 => Ok(Refusal::TagDiffers),
            2 => Ok(Refusal::TooLong),
            3 => Ok(Refusal::OtherLength),
            4 => Ok(Refusal::LineTooLong),
            5 => Ok(Refusal::NotDigit),
            6 => Ok(Refusal::OddDigits),
            7 => Ok(Refusal::FrameTooShort),
            8 => Ok(Refusal::DataTooLong),
            9 => Ok(Refusal::DataPastFrame),
            10 => Ok(Refusal::MessageTooLong),
            11 => Ok(Refusal::NoNewline),
            12 => Ok(Refusal::PlaceBeyond),
            13 => Ok(Refusal::BufferTooSmall),
            14 => Ok(Refusal::End),
            15 => Ok(Refusal::LineTooSmall),
            16 => Ok(Refusal::RollMark),
            21 => Ok(Refusal::AreaDiffers),
            22 => Ok(Refusal::ZeroNonce),
            23 => Ok(Refusal::DataLate),
            24 => Ok(Refusal::RecordClosed),
            _ => Err(UnknownNumber(number)),
        }
    }
}
