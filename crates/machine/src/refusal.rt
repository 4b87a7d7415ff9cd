//! Why a call of a processor is refused.
ghost use Rattle.std.specs.Prelude.{◌≡◌};
ghost use Rattle.machine.specs.Refusals.{number as numbered};

/// The cause of a refusal, by its number.
#[derive(Clone, Copy, PartialEq, Eq, Debug)]
pub enum Refusal {
    NoRegister = 4,
    NoAddress = 5,
    NoLevel = 6,
    LevelZero = 7,
    RunTooLong = 8,
}

impl Refusal {
    /// The number of the refusal.
    pub fn number(self) -> u8
        ensures { result ≡ numbered self }
    {
        self as u8
    }
}
