//! The inhibits.
ghost use Rattle.std.specs.Prelude.{◌≡◌};
ghost use Rattle.levels.specs.Levels.{inhibited};

/// II and EI: a level that one of them inhibits neither enters nor blocks, and exits only where no other active one is uninhibited.
#[derive(Clone, Copy, PartialEq, Eq, Debug, Default)]
pub struct Inhibits {
    pub ii: bool,
    pub ei: bool,
}

impl Inhibits {
    /// Whether a level is inhibited.
    pub(crate) fn cover(self, number: u8) -> bool
        ensures { result ≡ inhibited self.ii self.ei number }
    {
        match number {
            0 | 1 => false,
            2..=7 => self.ii,
            _ => self.ei,
        }
    }
}
