//! What a processor did, as sentences.
use machine::{Outcome, Violation, ViolationKind};
use std::fmt;

/// What a step was.
#[derive(Drop)]
pub(crate) struct Step(pub(crate) Outcome);

impl fmt::Display for Step {
    fn fmt<W: fmt::Write>(&self, f: &mut fmt::Formatter<W>) -> fmt::Result {
        match self.0 {
            Outcome::Entered(level) => write!(f, "Level {level} is entered."),
            Outcome::Idle => f.write_str("The processor is idle."),
            Outcome::Violated(found) => write!(f, "{}", Found(found)),
            Outcome::Stalled(found) => write!(f, "The processor stalls.\n{}", Found(found)),
            Outcome::NotCarried => f.write_str("A code is not carried."),
            Outcome::Done => f.write_str("An instruction is done."),
        }
    }
}

// A violation that was found.
#[derive(Drop)]
struct Found(Violation);

impl fmt::Display for Found {
    fn fmt<W: fmt::Write>(&self, f: &mut fmt::Formatter<W>) -> fmt::Result {
        let Violation { kind, place, aim } = self.0;
        let kind = with_article(kind);
        write!(
            f,
            "{kind} violation: the instruction at 0x{place:04x} aims at 0x{aim:04x}."
        )
    }
}

// The kind of a violation, at the start of a sentence.
fn with_article(kind: ViolationKind) -> &'static str {
    match kind {
        ViolationKind::Entry => "An entry",
        ViolationKind::Operation => "An operation",
        ViolationKind::Store => "A store",
    }
}
