//! The lines of a trace that are not of counts, each without its line feed.
ghost use Rattle.std.specs.Prelude.{◌≡◌, ◌<◌, Some, slice_index};
ghost use Rattle.console.specs.Lines.{change as changed, changes as all_changes, outcome_text, signal_line, step_line, violation_line, violation_text};

use listing::Hex;
use machine::{Outcome, Refusal, Signalled, Violation};
use std::fmt;

// A violation that is shown as its kind, its place and its aim.
#[derive(Clone, Copy)]
struct ViolationText(Violation);

impl fmt::Display for ViolationText {
    ghost output = { λ x. Some (violation_text x.0) };

    fn fmt<W: fmt::Write>(&self, f: &mut fmt::Formatter<W>) -> fmt::Result {
        let Violation { kind, place, aim } = self.0;
        write!(f, "{kind} {} {}", Hex(place), Hex(aim))
    }
}

// What a step was, shown as a word and what belongs to it.
#[derive(Clone, Copy)]
struct OutcomeText(Outcome);

impl fmt::Display for OutcomeText {
    ghost output = { λ x. Some (outcome_text x.0) };

    fn fmt<W: fmt::Write>(&self, f: &mut fmt::Formatter<W>) -> fmt::Result {
        match self.0 {
            Outcome::Entered(level) => write!(f, "entry {level}"),
            Outcome::Idle => write!(f, "idle"),
            Outcome::Violated(violation) => write!(f, "violation {}", ViolationText(violation)),
            Outcome::Stalled(violation) => write!(f, "stall {}", ViolationText(violation)),
            Outcome::NotCarried => write!(f, "not-carried"),
            Outcome::Done => write!(f, "done"),
        }
    }
}

// A register around a step, shown with its word after it where that is another than before.
#[derive(Clone, Copy)]
struct Change {
    name: &'static str,
    before: u16,
    after: u16,
}

impl fmt::Display for Change {
    ghost output = { λ x. Some (changed x.name.now x.before x.after) };

    fn fmt<W: fmt::Write>(&self, f: &mut fmt::Formatter<W>) -> fmt::Result {
        if self.before == self.after {
            return Ok(());
        }
        write!(f, " {}={}", self.name, Hex(self.after))
    }
}

// The registers around a step, shown where they changed; without P, which the next line shows.
#[derive(Clone, Copy)]
struct Changes<'a> {
    before: &'a [u16; 8],
    after: &'a [u16; 8],
}

impl Changes<'_> {
    // The register of a number, by its name.
    fn of(&self, name: &'static str, number: usize) -> Change
        requires { number < 8 }
        ensures name { result.name.now ≡ name.now }
        ensures before { result.before ≡ slice_index self.now.before.now number }
        ensures after { result.after ≡ slice_index self.now.after.now number }
    {
        Change {
            name,
            before: self.before[number],
            after: self.after[number],
        }
    }
}

impl fmt::Display for Changes<'_> {
    ghost output = { λ x. Some (all_changes x.before.now x.after.now) };

    fn fmt<W: fmt::Write>(&self, f: &mut fmt::Formatter<W>) -> fmt::Result {
        write!(
            f,
            "{}{}{}{}{}{}",
            self.of("L", 2),
            self.of("T", 3),
            self.of("X1", 4),
            self.of("X2", 5),
            self.of("E", 6),
            self.of("A", 7)
        )
    }
}

/// A step: its number, P before it, what it was, and the registers that it changed.
#[derive(Clone, Copy)]
pub struct StepLine<'a> {
    pub number: u32,
    pub outcome: Outcome,
    /// Registers 0 to 7 before the step.
    pub before: &'a [u16; 8],
    /// The same after it.
    pub after: &'a [u16; 8],
}

impl fmt::Display for StepLine<'_> {
    ghost output = { λ x. Some (step_line x.number x.outcome x.before.now x.after.now) };

    fn fmt<W: fmt::Write>(&self, f: &mut fmt::Formatter<W>) -> fmt::Result {
        let StepLine {
            number,
            outcome,
            before,
            after,
        } = *self;
        write!(
            f,
            "{number} {} {}{}",
            Hex(before[1]),
            OutcomeText(outcome),
            Changes { before, after }
        )
    }
}

/// A signal to a level, and what it answered.
#[derive(Clone, Copy)]
pub struct SignalLine {
    pub level: u8,
    pub answer: Result<Signalled, Refusal>,
}

impl fmt::Display for SignalLine {
    ghost output = { λ x. Some (signal_line x.level x.answer) };

    fn fmt<W: fmt::Write>(&self, f: &mut fmt::Formatter<W>) -> fmt::Result {
        let SignalLine { level, answer } = *self;
        match answer {
            Ok(signalled) => write!(f, "signal {level} {signalled}"),
            Err(refusal) => write!(f, "signal {level} refused {}", refusal.number()),
        }
    }
}

/// The latest violation, or that there was none.
#[derive(Clone, Copy)]
pub struct ViolationLine(pub Option<Violation>);

impl fmt::Display for ViolationLine {
    ghost output = { λ x. Some (violation_line x.0) };

    fn fmt<W: fmt::Write>(&self, f: &mut fmt::Formatter<W>) -> fmt::Result {
        match self.0 {
            None => write!(f, "violation none"),
            Some(violation) => write!(f, "violation {}", ViolationText(violation)),
        }
    }
}
