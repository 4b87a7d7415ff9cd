//! The text of a processor at work: the counts of a run, and the lines of a trace.
#![tactic(auto)]

mod lines;
mod runs;
mod signals;
mod start;
mod traces;

pub use lines::{SignalLine, StepLine, ViolationLine};
pub use listing::LIMIT;
pub use runs::{RunLine, run, run_line};
pub use signals::{NoSignal, Signal};
pub use traces::trace;
