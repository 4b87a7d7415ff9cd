//! Why a plan stays as it was.
ghost use Rattle.std.specs.Prelude.{◌≡◌};
ghost use Rattle.memory.specs.Changes.{refusal_number};

/// Why a change of a plan is refused.
#[derive(Clone, Copy, PartialEq, Eq, Debug)]
pub enum PlanRefusal {
    /// The block is above 7.
    NoBlock = 1,
    /// The portion is above 31.
    NoPortion = 2,
    /// Another block holds the portion.
    PortionHeld = 3,
}

impl PlanRefusal {
    /// The number of the refusal.
    pub fn number(self) -> u8
        ensures { result ≡ refusal_number self }
    {
        self as u8
    }
}
