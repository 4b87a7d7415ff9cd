//! A processor over core memory: what it is given, and what is done with it until it is halted.
use engine::{Idle, Processor, Running};
use memory::Core;

/// How many words of core memory there are.
pub(crate) const SIZE: usize = 8192;

/// A register, whose number is its place here.
#[derive(Clone, Copy, Debug)]
pub(crate) enum Register {
    Z,
    P,
    L,
    T,
    X1,
    X2,
    E,
    A,
}

impl Register {
    /// What the register holds.
    pub(crate) fn of(self, registers: [u16; 8]) -> u16 {
        registers[self as usize]
    }
}

/// What a processor holds before it goes, if not 0.
#[derive(Clone, Copy)]
pub(crate) struct Start<'a> {
    pub(crate) registers: &'a [(Register, u16)],
    pub(crate) words: &'a [(u16, u16)],
    // Protection register 0: a bit for each of pages 0 to 15.
    pub(crate) pages: u16,
    // The levels that are armed and enabled.
    pub(crate) levels: &'a [u8],
    // The protect switch.
    pub(crate) protect: bool,
}

/// Zeros alone, and the protect switch off.
pub(crate) const ZEROS: Start<'static> = Start {
    registers: &[],
    words: &[],
    pages: 0,
    levels: &[],
    protect: false,
};

impl Start<'_> {
    fn prepare(&self, processor: &mut Processor<Idle, Core<'_>>) {
        for (address, word) in self.words {
            let _ = processor.deposit_word(*address, *word);
        }
        for (register, word) in self.registers {
            let _ = processor.deposit_register(*register as u8, *word);
        }
        let _ = processor.deposit_protection(0, self.pages);
        for level in self.levels {
            // An image: the level armed and enabled, and the end.
            let _ = processor.load(&[4, *level, 2, 255]);
        }
    }

    /// Sets a processor over the words going, and halts it after the acts.
    pub(crate) fn go<R, F: FnOnce(&mut Processor<Running, Core<'_>>) -> R>(
        &self,
        words: &mut [u16],
        acts: F,
    ) -> R
        requires { F.IsAlwaysCallable acts }
    {
        let mut idle = Processor::new(Core::new(words));
        self.prepare(&mut idle);
        let mut running = idle.go(self.protect);
        let seen = acts(&mut running);
        let _ = running.halt().into_memory();
        seen
    }
}
