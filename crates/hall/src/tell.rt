//! The story.
use crate::hall;
use crate::sentence::Step;
use engine::{Processor, Running};
use machine::{Outcome, Signalled};
use memory::Core;
use std::io;

/// The processor that the story is of, and the runtime by which it is told.
#[derive(Drop)]
pub(crate) struct Teller<'r, 'm, R> {
    pub(crate) rt: &'r R,
    pub(crate) processor: &'r mut Processor<Running, Core<'m>>,
}

// A byte as a character, or a dot where it is none that prints.
fn printed(byte: u8) -> char {
    match byte {
        b' '..=b'~' => byte as char,
        _ => '.',
    }
}

impl<R: Print> Teller<'_, '_, R> {
    // The word at an address, of which the memory has more than the story names.
    fn word_at(&mut self, address: u16) -> u16 {
        self.processor.word(address).unwrap_or(0)
    }

    // Where the next instruction is.
    fn place(&self) -> u16 {
        self.processor.registers()[hall::P as usize]
    }

    // The key table, word by word.
    fn show_keys(&mut self) -> io::Result<()> {
        print!(self.rt; "The key table at 0x0300 holds")?;
        let held = hall::KEYS.map(|(address, _)| self.word_at(address));
        for word in held {
            print!(self.rt; " 0x{word:04x}")?;
        }
        let lost = hall::KEYS
            .into_iter()
            .zip(held)
            .filter(|((_, key), word)| key != word)
            .count();
        match lost {
            0 => println!(self.rt; ": every key is as it was."),
            1 => println!(self.rt; ": one key is lost."),
            _ => println!(self.rt; ": {lost} keys are lost."),
        }
    }

    // The line of the print program.
    fn show_line(&mut self) -> io::Result<()> {
        let start = hall::LINE;
        print!(self.rt; "The line at 0x{start:04x} reads \"")?;
        for address in start..start + 16 {
            for byte in self.word_at(address).to_be_bytes() {
                self.rt.print(printed(byte))?;
            }
        }
        println!(self.rt; "\".")
    }

    // How often a level has run, as the foreground counts it.
    fn show_count(&mut self, level: u8) -> io::Result<()> {
        let address = hall::COUNTS + u16::from(level);
        let count = self.word_at(address);
        println!(self.rt; "The count of level {level}, at 0x{address:04x}, is 0x{count:04x}.")
    }

    // The next instruction.
    fn show_place(&self) -> io::Result<()> {
        println!(self.rt; "The next instruction is at 0x{:04x}.", self.place())
    }

    // A signal to a level.
    fn signal(&mut self, level: u8) -> io::Result<()> {
        match self.processor.signal(level) {
            Ok(Signalled::Waiting) => println!(self.rt; "A signal to level {level} waits."),
            Ok(Signalled::Dropped) => println!(self.rt; "A signal to level {level} is dropped."),
            Err(refusal) => println!(self.rt;
                "A signal to level {level} is refused by {}.",
                refusal.number()
            ),
        }
    }

    // Steps until a step is something else than an instruction done, or until the print program rests.
    fn print_line(&mut self) -> io::Result<()> {
        for done in 0..200u8 {
            if self.place() == hall::REST {
                return println!(self.rt; "The print program does {done} instructions, and rests.");
            }
            let outcome = self.processor.step();
            if outcome != Outcome::Done {
                println!(self.rt; "The print program does {done} instructions.")?;
                return self.rt.println(Step(outcome));
            }
        }
        println!(self.rt; "The print program does not rest.")
    }

    // Steps until the print program rests again, and counts.
    fn foreground(&mut self, level: u8) -> io::Result<()> {
        self.rt.println(Step(self.processor.step()))?;
        for _ in 0..20 {
            if self.place() == hall::REST {
                break;
            }
            let _ = self.processor.step();
        }
        self.show_count(level)?;
        self.show_place()
    }

    // A signal to a level, and a second one while the first waits.
    fn signal_twice(&mut self, level: u8) -> io::Result<()> {
        self.signal(level)?;
        self.signal(level)?;
        self.foreground(level)
    }

    /// The whole story.
    pub(crate) fn tell(&mut self) -> io::Result<()> {
        self.show_keys()?;
        self.print_line()?;
        if self.processor.violation().is_some() {
            self.show_keys()?;
            self.foreground(0)?;
        }
        self.show_line()?;
        self.show_keys()?;
        for level in [5, 9, 5] {
            self.signal_twice(level)?;
        }
        self.show_keys()
    }
}
