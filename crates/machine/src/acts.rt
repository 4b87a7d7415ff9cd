//! What steps make of the state of a processor.
ghost use Rattle.std.specs.Prelude.{◌≡◌, true, not, ◌&&◌};
ghost use Rattle.levels.specs.Bits.{bit};
ghost use Rattle.machine.specs.State.{set_work};
ghost use Rattle.machine.specs.Step.{class, due, enter_cpu, exits, fetch_cpu, fetch_pp, judge, leave_cpu, permitted, read_function, stalls, status, violate_cpu, violation, write_function};
ghost use Rattle.machine.specs.View.{cpu_of};
ghost use Rattle.machine.specs.Words.{protects};
ghost use Rattle.machine.specs.Work.{set_oc};

use crate::call::Outcome;
use crate::instruction::{Instruction, ReadFunction, WriteFunction};
use crate::state::{Mark, State, Violation, ViolationKind};
use levels::{Event, Inhibits, Property, bit_of};

// II and EI as a word gives them.
fn inhibits_of(word: u16) -> Inhibits
    ensures ii { result.ii ≡ bit word 12 }
    ensures ei { result.ei ≡ bit word 13 }
{
    Inhibits {
        ii: bit_of(word, 12),
        ei: bit_of(word, 13),
    }
}

impl State {
    /// The level that enters now, if any.
    pub fn due(&mut self) -> Option<u8>
        ensures answer { result ≡ due (cpu_of self.old).mark (cpu_of self.old).guard }
        ensures same { cpu_of self.new ≡ cpu_of self.old }
    {
        if self.mark == Mark::Exit {
            return None;
        }
        self.levels.lowest(self.inhibits)
    }

    /// The first status word.
    pub fn status(&self) -> u16
        ensures { result ≡ status (cpu_of self.now) }
    {
        self.pp as u16 * 16
            + self.inhibits.ii as u16 * 8
            + self.inhibits.ei as u16 * 4
            + self.work.o as u16 * 2
            + self.work.c as u16
    }

    /// Entry of a level, whose cell holds an address.
    pub fn enter(&mut self, number: u8, address: u16)
        ensures { cpu_of self.new ≡ enter_cpu number address (cpu_of self.old) }
    {
        self.levels.tell(number, Event::Enter);
        self.work.p = address.wrapping_add(2);
        self.pp = true;
        self.mark = Mark::Unset;
    }

    /// Exit by two status words: the inhibits as they are before it say which level exits.
    pub fn leave(&mut self, first: u16, second: u16)
        ensures { cpu_of self.new ≡ leave_cpu first second (cpu_of self.old) }
    {
        self.levels.release(self.inhibits);
        self.work.p = second;
        self.work.o = bit_of(first, 14);
        self.work.c = bit_of(first, 15);
        self.inhibits = inhibits_of(first);
        self.pp = !self.switch || bit_of(first, 11);
    }

    /// PP after a fetch at P, or `None` where the fetch is an entry violation.
    pub fn fetch_pp(&self) -> Option<bool>
        ensures { result ≡ fetch_pp (cpu_of self.now).switch (cpu_of self.now).pp (protects (cpu_of self.now).guard.protection (cpu_of self.now).work.p) }
    {
        if !self.switch {
            return Some(self.pp);
        }
        let page = self.protection.protects(self.work.p);
        // The background may fetch from an unprotected page alone, and stays the background there.
        (self.pp || !page).then_some(page)
    }

    /// Lets an instruction at P through, or answers its violation, at the PP that its fetch leaves.
    pub fn judge(&self, pp: bool, instruction: Instruction) -> Result<(), Violation>
        ensures { result ≡ permitted (judge ((cpu_of self.now).switch && not pp) (cpu_of self.now).guard.protection (cpu_of self.now).work.p (class instruction)) }
    {
        let background = self.switch && !pp;
        let (kind, aim) = match instruction {
            Instruction::Sta(aim) | Instruction::Im(aim)
                if background && self.protection.protects(aim) => { (ViolationKind::Store, aim) }
            Instruction::Read(_, aim) | Instruction::Write(_, aim) if background => {
                (ViolationKind::Operation, aim)
            }
            _ => return Ok(()),
        };
        Err(Violation {
            kind,
            place: self.work.p,
            aim,
        })
    }

    /// Whether an LDX exits, at the PP that its fetch leaves.
    pub fn exits(&self, pp: bool) -> bool
        ensures { result ≡ exits (cpu_of self.now).mark pp }
    {
        pp && self.mark == Mark::Exit
    }

    /// A fetch that leaves this PP.
    pub fn fetch(&mut self, pp: bool)
        ensures { cpu_of self.new ≡ fetch_cpu pp (cpu_of self.old) }
    {
        self.last = self.work.p;
        self.work.p = self.work.p.wrapping_add(1);
        self.pp = pp;
        self.mark = Mark::Unset;
    }

    /// A violation, at the PP that the fetch left.
    pub fn violate(&mut self, pp: bool, found: Violation) -> Outcome
        ensures answer { result ≡ violation (stalls (cpu_of self.old)) found }
        ensures after { cpu_of self.new ≡ violate_cpu pp found (cpu_of self.old) }
    {
        let stalls = self.levels.at(0).has(Property::Active);
        self.levels.tell(0, Event::Violate);
        self.pp = pp;
        self.mark = if stalls { Mark::Wait } else { Mark::Unset };
        self.violation = Some(found);
        if stalls {
            Outcome::Stalled(found)
        } else {
            Outcome::Violated(found)
        }
    }

    // A function of RD or WD that is not listed.
    fn unlisted(&mut self)
        ensures { cpu_of self.new ≡ set_work (set_oc true true (cpu_of self.old).work) (cpu_of self.old) }
    {
        self.work.o = true;
        self.work.c = true;
    }

    /// A privileged function of RD.
    pub fn read(&mut self, function: ReadFunction)
        ensures { cpu_of self.new ≡ set_work (read_function function (cpu_of self.old) (cpu_of self.old).work) (cpu_of self.old) }
    {
        match function {
            ReadFunction::Protection(number) => self.work.a = self.protection.word(number),
            ReadFunction::Status => self.work.a = self.status(),
            ReadFunction::Levels(property) => self.work.a = self.levels.bits(property),
            ReadFunction::Unlisted => self.unlisted(),
        }
    }

    /// A privileged function of WD.
    pub fn write(&mut self, function: WriteFunction)
        ensures { cpu_of self.new ≡ write_function function (cpu_of self.old) }
    {
        let a = self.work.a;
        match function {
            WriteFunction::Protection(number) => {
                let _ = self.protection.set(number, a);
            }
            WriteFunction::Inhibits => self.inhibits = inhibits_of(a),
            WriteFunction::Wait => self.mark = Mark::Wait,
            WriteFunction::Exit => self.mark = Mark::Exit,
            WriteFunction::Levels(control) => self.levels.control_each(control, a),
            WriteFunction::Unlisted => self.unlisted(),
        }
    }
}
