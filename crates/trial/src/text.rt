//! What a processor answers, as text.
use machine::{Counts, Outcome, Refusal, Violation};
use std::fmt;

/// What a step was.
#[derive(Drop)]
pub(crate) struct Stepped(pub(crate) Outcome);

impl fmt::Display for Stepped {
    fn fmt<W: fmt::Write>(&self, f: &mut fmt::Formatter<W>) -> fmt::Result {
        match self.0 {
            Outcome::Entered(level) => write!(f, "entered {level}"),
            Outcome::Idle => f.write_str("idle"),
            Outcome::Violated(found) => write!(f, "{}", Found(found)),
            Outcome::Stalled(found) => write!(f, "stalled by {}", Found(found)),
            Outcome::NotCarried => f.write_str("not carried"),
            Outcome::Done => f.write_str("done"),
        }
    }
}

// A violation that was found.
#[derive(Drop)]
struct Found(Violation);

impl fmt::Display for Found {
    fn fmt<W: fmt::Write>(&self, f: &mut fmt::Formatter<W>) -> fmt::Result {
        let Violation { kind, place, aim } = self.0;
        write!(f, "{kind} violation at 0x{place:04x}, aim 0x{aim:04x}")
    }
}

/// What a run came to.
#[derive(Drop)]
pub(crate) struct Ran(pub(crate) Counts);

impl fmt::Display for Ran {
    fn fmt<W: fmt::Write>(&self, f: &mut fmt::Formatter<W>) -> fmt::Result {
        write!(f, "taken: {} done", self.0.done)
    }
}

/// How many records an image has.
#[derive(Drop)]
pub(crate) struct Loaded(pub(crate) usize);

impl fmt::Display for Loaded {
    fn fmt<W: fmt::Write>(&self, f: &mut fmt::Formatter<W>) -> fmt::Result {
        write!(f, "taken: {} records", self.0)
    }
}

/// A word of memory or of a register.
#[derive(Drop)]
pub(crate) struct Word(pub(crate) u16);

impl fmt::Display for Word {
    fn fmt<W: fmt::Write>(&self, f: &mut fmt::Formatter<W>) -> fmt::Result {
        write!(f, "0x{:04x}", self.0)
    }
}

/// What a call gave, or the number of its refusal.
#[derive(Drop)]
pub(crate) struct Answer<T>(pub(crate) Result<T, u8>);

impl<T> From<Result<T, Refusal>> for Answer<T> {
    fn from(answer: Result<T, Refusal>) -> Answer<T> {
        Answer(answer.map_err(Refusal::number))
    }
}

impl<T: fmt::Display> fmt::Display for Answer<T> {
    fn fmt<W: fmt::Write>(&self, f: &mut fmt::Formatter<W>) -> fmt::Result {
        match &self.0 {
            Ok(given) => write!(f, "{given}"),
            Err(number) => write!(f, "refused by {number}"),
        }
    }
}
