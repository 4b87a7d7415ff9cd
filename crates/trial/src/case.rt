//! One case: what a processor is given, what is done, and what is seen.
use crate::start::{Register, SIZE, Start};
use crate::text::{Answer, Stepped, Word};
use engine::{Processor, Running};
use memory::Core;
use std::io;

/// What is done with a running processor, or looked at.
#[derive(Clone, Copy)]
pub(crate) enum Act {
    Step,
    Signal(u8),
    Register(Register),
    Word(u16),
    // O and C of the status word that A holds.
    Flags,
}

impl Act {
    // Does the act, and prints what is seen.
    fn show(self, rt: &impl Print, processor: &mut Processor<Running, Core<'_>>) -> io::Result<()> {
        match self {
            Act::Step => rt.print(Stepped(processor.step())),
            Act::Signal(level) => {
                let answer = Answer::from(processor.signal(level));
                print!(rt; "signal {level} is {answer}")
            }
            Act::Register(register) => {
                let word = Word(register.of(processor.registers()));
                print!(rt; "{register:?} is {word}")
            }
            Act::Word(address) => {
                let answer = Answer::from(processor.word(address).map(Word));
                print!(rt; "word {} is {answer}", Word(address))
            }
            Act::Flags => {
                let status = Register::A.of(processor.registers());
                print!(rt; "O {}, C {}", status >> 1 & 1, status & 1)
            }
        }
    }
}

/// A case.
#[derive(Clone, Copy)]
pub(crate) struct Case {
    pub(crate) name: &'static str,
    pub(crate) start: Start<'static>,
    pub(crate) acts: &'static [Act],
}

impl Case {
    fn show(
        &self,
        rt: &impl Print,
        processor: &mut Processor<Running, Core<'_>>,
    ) -> io::Result<()> {
        rt.print(self.name)?;
        let mut between = ": ";
        for act in self.acts {
            rt.print(between)?;
            act.show(rt, processor)?;
            between = "; ";
        }
        rt.println("")
    }

    /// Carries the case out, and prints one line of what was seen.
    pub(crate) fn carry_out(&self, rt: &(impl Print + AllocGlobal)) -> io::Result<()> {
        let mut words = vec![in rt.alloc(); 0u16; SIZE]?;
        self.start
            .go(&mut words, |processor| self.show(rt, processor))
    }
}
