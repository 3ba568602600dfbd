//! Why a line is not sealed.
ghost use Rattle.std.specs.Prelude.{◌≡◌};
ghost use Rattle.answers.specs.Refusal.{number_of};
ghost use Rattle.sealing.specs.Line.{number_with, word_about};

use answers::Refusal;
use answers::sizes::{MOST_DATA, MOST_MESSAGE};
use lines::WordError;
use std::error::Error;
use std::fmt;

/// Why a line is not sealed: which word is wrong, and why. It is printed as `seal` says it.
#[derive(Clone, Copy, Debug, PartialEq, Eq)]
pub enum Unsealed {
    /// The line is not three words with single spaces between.
    NotThreeWords,
    /// The first word does not say sixteen bytes.
    Nonce(WordError),
    /// The second word does not say bytes, or more than data may have.
    Data(WordError),
    /// The third word does not say bytes, or more than a message may have.
    Message(WordError),
    /// The journal's writer refuses: a nonce of sixteen zeros, or too little room for the line.
    Unwritten(Refusal),
}

impl Unsealed {
    ghost use Rattle.std.specs.Prelude.{◌≡◌};
    ghost use Rattle.sealing.specs.Line.{refused_as};

    /// Which word is wrong: 1 the nonce's, 2 the data's, 3 the message's; 4 where the line is not three words, and 0
    /// where no word is.
    // Numbers for word and reason: both are promised, as those of the report in specs/ (`refused_as`).
    pub fn word(self) -> u8
        ensures { result ≡ (refused_as self).word }
    {
        match self {
            Unsealed::NotThreeWords => 4,
            Unsealed::Nonce(_) => 1,
            Unsealed::Data(_) => 2,
            Unsealed::Message(_) => 3,
            Unsealed::Unwritten(refusal) => word_about(refusal),
        }
    }

    /// What is wrong: a refusal's number, or one of 252 to 255, which no refusal has.
    pub fn number(self) -> u8
        ensures { result ≡ (refused_as self).number }
    {
        match self {
            Unsealed::NotThreeWords => 252,
            Unsealed::Nonce(e) => e.number(),
            Unsealed::Data(e) => or_too_long(e, Refusal::DataTooLong),
            Unsealed::Message(e) => or_too_long(e, Refusal::MessageTooLong),
            Unsealed::Unwritten(refusal) => refusal.number(),
        }
    }
}

// The word that a refusal of the writer's is about.
fn word_about(refusal: Refusal) -> u8
    ensures { result ≡ word_about (number_of refusal) }
{
    match refusal {
        Refusal::ZeroNonce => 1,
        _ => 0,
    }
}

// The number of a word's error, where `longer` is said of one that does not fit.
fn or_too_long(e: WordError, longer: Refusal) -> u8
    ensures { result ≡ number_with (number_of longer) e }
{
    match e {
        WordError::NoRoom => longer.number(),
        _ => e.number(),
    }
}

impl From<Refusal> for Unsealed {
    ghost use Rattle.std.specs.Prelude.{◌≡◌};
    ghost use Rattle.sealing.specs.declared.unsealed.Unsealed.TheVariants.{Unwritten};

    ghost from_gives = { λ why e. e ≡ Unwritten why };

    fn from(why: Refusal) -> Unsealed {
        Unsealed::Unwritten(why)
    }
}

// By hand, where other errors derive it: the word is told by `word`, and the number of what is too long, zero or
// without room by `number`, as both are promised.
impl fmt::Display for Unsealed {
    fn fmt<W: fmt::Write>(&self, f: &mut fmt::Formatter<W>) -> fmt::Result {
        let about = match self.word() {
            1 => "nonce: ",
            2 => "data: ",
            3 => "message: ",
            _ => "",
        };
        f.write_str(about)?;
        let number = self.number();
        match self {
            Unsealed::NotThreeWords => {
                f.write_str("not three words, NONCE DATA MESSAGE, with single spaces between")
            }
            Unsealed::Data(WordError::NoRoom) => write!(f, "over {} bytes ({number})", MOST_DATA),
            Unsealed::Message(WordError::NoRoom) => {
                write!(f, "over {} bytes ({number})", MOST_MESSAGE)
            }
            Unsealed::Nonce(e) | Unsealed::Data(e) | Unsealed::Message(e) => write!(f, "{e}"),
            Unsealed::Unwritten(Refusal::ZeroNonce) => write!(f, "sixteen zero bytes ({number})"),
            Unsealed::Unwritten(Refusal::LineTooSmall) => {
                write!(f, "no room for the line ({number})")
            }
            Unsealed::Unwritten(refusal) => write!(f, "{refusal}"),
        }
    }
}

impl Error for Unsealed {}
