//! The protection registers.
ghost use Rattle.std.specs.Prelude.{◌≡◌, ℕ, ◌<◌, replicate};
ghost use Rattle.machine.specs.State.{protect_after, protect_answer, protection_word};
ghost use Rattle.machine.specs.Words.{protects};

use crate::refusal::Refusal;
use levels::bit_of;

/// Sixteen registers with a bit for each page.
#[derive(Clone, Copy)]
pub struct Protection {
    registers: [u16; 16],
}

impl Protection {
    /// No page is protected.
    pub(crate) fn new() -> Protection
        ensures { result.registers ≡ replicate 16 0 }
    {
        Protection { registers: [0; 16] }
    }

    /// The sixteen registers.
    pub fn words(&self) -> [u16; 16]
        ensures { result ≡ self.now.registers }
    {
        let Protection { registers } = *self;
        registers
    }

    /// Sets register 0 to 15.
    pub fn set(&mut self, number: u8, word: u16) -> Result<(), Refusal>
        ensures answer { result ≡ protect_answer number }
        ensures after { self.new.registers ≡ protect_after number word self.old.registers }
    {
        if number > 15 {
            return Err(Refusal::NoRegister);
        }
        self.registers[number as usize] = word;
        Ok(())
    }

    /// Register 0 to 15; any other reads as 0.
    pub(crate) fn word(&self, number: u8) -> u16
        ensures { result ≡ protection_word number self.now.registers }
    {
        self.registers.get(number as usize).copied().unwrap_or(0)
    }

    /// Whether an address lies in a protected page.
    pub(crate) fn protects(&self, address: u16) -> bool
        ensures { result ≡ protects self.now.registers address }
    {
        let page = address / 256;
        bit_of(self.registers[(page / 16) as usize], (page % 16) as u8)
    }
}
