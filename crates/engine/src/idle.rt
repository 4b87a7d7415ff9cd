//! What only an idle processor takes.
ghost use Rattle.std.specs.Prelude.{◌≡◌, true};
ghost use Rattle.isolation.specs.Isolation.{Isolated};
ghost use Rattle.machine.specs.Calls.{gone};
ghost use Rattle.machine.specs.State.{initial, protect_answer, put_answer};
ghost use Rattle.machine.specs.View.{cpu_of};
ghost use Rattle.engine.specs.View.{seen};
ghost use Rattle.engine.specs.Calls.{deposit_answer, deposited, put, protected};

use crate::processor::{Idle, Processor, Running};
use machine::{Refusal, State};
use memory::Memory;

impl<M: Memory> Processor<Idle, M> {
    /// A new processor over a memory, whose words it leaves.
    pub fn new(memory: M) -> Processor<Idle, M>
        ensures cpu { cpu_of result.state ≡ initial }
        ensures memory { result.memory ≡ memory }
    {
        Processor {
            state: State::new(),
            memory,
            mode: Idle,
        }
    }

    /// The memory back, and the end of the processor.
    pub fn into_memory(self) -> M
        ensures { result ≡ self.memory }
    {
        let Processor {
            state: _,
            memory,
            mode: Idle,
        } = self;
        memory
    }

    /// Sets register 1 to 7.
    pub fn deposit_register(&mut self, number: u8, word: u16) -> Result<(), Refusal>
        ensures answer { result ≡ put_answer number }
        ensures after { seen M.words self.new ≡ put number word (seen M.words self.old) }
        ensures outside { M.outer self.new.memory ≡ M.outer self.old.memory }
    {
        self.state.work.put(number, word)
    }

    /// Sets protection register 0 to 15.
    pub fn deposit_protection(&mut self, number: u8, word: u16) -> Result<(), Refusal>
        ensures answer { result ≡ protect_answer number }
        ensures after { seen M.words self.new ≡ protected number word (seen M.words self.old) }
        ensures outside { M.outer self.new.memory ≡ M.outer self.old.memory }
    {
        self.state.protection.set(number, word)
    }

    /// Sets the memory word at an address below the size.
    pub fn deposit_word(&mut self, address: u16, word: u16) -> Result<(), Refusal>
        ensures answer { result ≡ deposit_answer address (M.words self.old.memory) }
        ensures after { seen M.words self.new ≡ deposited address word (seen M.words self.old) }
        ensures outside { M.outer self.new.memory ≡ M.outer self.old.memory }
    {
        if address as u32 >= self.memory.size() {
            return Err(Refusal::NoAddress);
        }
        self.memory.store(address, word);
        Ok(())
    }

    /// Sets the processor going, with the protect switch on or off.
    pub fn go(self, protect: bool) -> Processor<Running, M>
        ensures after { seen M.words result ≡ gone protect (seen M.words self) }
        ensures memory { result.memory ≡ self.memory }
        ensures isolated { protect ≡ true → Isolated (seen M.words result) }
    {
        let mut running = self.with_mode(Running);
        running.state.pp = true;
        running.state.last = 0;
        running.state.switch = protect;
        running
    }
}
