//! The calls of a running processor, and their answers.
ghost use Rattle.std.specs.Prelude.{◌≡◌};
ghost use Rattle.machine.specs.Calls.{tallied};
ghost use Rattle.machine.specs.Step.{carried, class};
ghost use Rattle.machine.specs.Tallies.{Room, capped_tally};

use crate::instruction::Instruction;
use crate::refusal::Refusal;
use crate::state::Violation;

/// What a step was.
#[derive(Clone, Copy, PartialEq, Eq, Debug)]
pub enum Outcome {
    /// A level was entered.
    Entered(u8),
    /// The wait mark is set, and no level may enter.
    Idle,
    /// A violation: level 0 waits.
    Violated(Violation),
    /// A violation while level 0 is active: the wait mark is set.
    Stalled(Violation),
    /// An instruction whose code is not carried.
    NotCarried,
    /// An instruction was carried out.
    Done,
}

/// What a signal did: its level went from armed to waiting, or the signal was dropped.
#[derive(Clone, Copy, PartialEq, Eq, Debug)]
pub enum Signalled {
    Waiting,
    Dropped,
}

/// The most steps that a run may have.
pub const LONGEST_RUN: u32 = 1_000_000;

/// How many steps of a run were of each kind.
#[derive(Clone, Copy, PartialEq, Eq, Debug, Default)]
pub struct Counts {
    pub done: u32,
    pub not_carried: u32,
    pub violations: u32,
    pub stalls: u32,
    pub entries: u32,
    pub idles: u32,
}

impl Counts {
    /// Counts one step more; a count that can go no higher stays.
    pub fn tally(&mut self, outcome: Outcome)
        ensures capped { self.new ≡ capped_tally outcome self.old }
        ensures exact { Room self.old → self.new ≡ tallied outcome self.old }
    {
        match outcome {
            Outcome::Done => self.done = self.done.saturating_add(1),
            Outcome::NotCarried => self.not_carried = self.not_carried.saturating_add(1),
            Outcome::Violated(_) => self.violations = self.violations.saturating_add(1),
            Outcome::Stalled(_) => self.stalls = self.stalls.saturating_add(1),
            Outcome::Entered(_) => self.entries = self.entries.saturating_add(1),
            Outcome::Idle => self.idles = self.idles.saturating_add(1),
        }
    }
}

/// A call of a running processor.
#[derive(Clone, Copy, PartialEq, Eq, Debug)]
pub enum Call {
    /// One step.
    Step,
    /// A run of so many steps.
    Run(u32),
    /// A signal to a level.
    Signal(u8),
    /// A look at registers 0 to 7.
    Registers,
    /// A look at the protection registers.
    Protection,
    /// A look at the latest violation.
    Violation,
    /// A look at the memory word at an address.
    Word(u16),
}

/// The answer to a call.
#[derive(Clone, Copy, PartialEq, Eq, Debug)]
pub enum Answer {
    /// What the step was.
    Stepped(Outcome),
    /// How many steps of the run were of each kind.
    Ran(Counts),
    /// What the signal did.
    Signalled(Signalled),
    /// Registers 0 to 7.
    Registers([u16; 8]),
    /// The protection registers.
    Protection([u16; 16]),
    /// The latest violation, if there was one.
    Violation(Option<Violation>),
    /// The memory word.
    Word(u16),
    /// The call was refused, and changed nothing.
    Refused(Refusal),
}

impl Instruction {
    /// What a step is that carries the instruction out.
    pub fn outcome(self) -> Outcome
        ensures { result ≡ carried (class self) }
    {
        match self {
            Instruction::NotCarried => Outcome::NotCarried,
            _ => Outcome::Done,
        }
    }
}
