//! What can be seen of a processor in every state.
ghost use Rattle.std.specs.Prelude.{◌≡◌};
ghost use Rattle.machine.specs.State.{registers as eight};
ghost use Rattle.machine.specs.View.{cpu_of};
ghost use Rattle.engine.specs.View.{seen};
ghost use Rattle.machine.specs.Calls.{word_answer};

use crate::processor::Processor;
use machine::{Refusal, Violation};
use memory::Memory;

impl<K, M: Memory> Processor<K, M> {
    /// Registers 0 to 7; Z is 0.
    pub fn registers(&self) -> [u16; 8]
        ensures { result ≡ eight (cpu_of self.now.state).work }
    {
        self.state.work.registers()
    }

    /// The sixteen protection registers.
    pub fn protection(&self) -> [u16; 16]
        ensures { result ≡ (cpu_of self.now.state).guard.protection }
    {
        self.state.protection.words()
    }

    /// The latest violation, if there was one.
    pub fn violation(&self) -> Option<Violation>
        ensures { result ≡ (cpu_of self.now.state).violation }
    {
        self.state.violation
    }

    /// The memory word at an address below the size.
    pub fn word(&mut self, address: u16) -> Result<u16, Refusal>
        ensures answer { result ≡ word_answer address (M.words self.old.memory) }
        ensures same { seen M.words self.new ≡ seen M.words self.old }
        ensures outside { M.outer self.new.memory ≡ M.outer self.old.memory }
    {
        self.memory.fetch(address).ok_or(Refusal::NoAddress)
    }
}
