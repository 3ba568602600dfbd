// Why a message is no reading.

// Not that of `answers`: by a decision this crate stands on nothing else of the project's (docs/DECISIONS.md).
#[derive(Clone, Copy)]
pub(crate) enum Refusal {
    NotTwenty = 17,
    CounterTooLarge = 18,
    ActiveAbove = 19,
    ResidentZero = 20,
}

impl Refusal {
    ghost use Rattle.std.specs.Prelude.{◌≡◌};
    ghost use Rattle.reading.specs.Refusal.{number_of};

    /// The refusal's number in the table.
    // A method and no `From`, as in `answers`.
    pub(crate) fn number(self) -> u8
        ensures { result ≡ number_of self }
    {
        self as u8
    }
}
