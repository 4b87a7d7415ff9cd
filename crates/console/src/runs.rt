//! A run of an image.
ghost use Rattle.std.specs.Prelude.{◌≡◌, Some};
ghost use Rattle.engine.specs.View.{seen};
ghost use Rattle.console.specs.Runs.{Shown, counts_after, run_line, run_of, run_report};

use crate::start::with_running;
use engine::{Processor, Running};
use image::Fault;
use listing::first;
use machine::Counts;
use memory::Memory;
use std::fmt;

// How many steps a run has.
const STEPS: u32 = 100;

// The counts of a run of a processor.
fn counts_after<M: Memory>(processor: &mut Processor<Running, M>) -> Counts
    ensures { result ≡ counts_after STEPS (seen M.words processor.old) }
{
    processor.run(STEPS).unwrap()
}

/// The six counts of a run of 100 steps of an image, loaded into a new processor over 8192 zero words, with the protect
/// switch on; or why the image is refused. Of the bytes the first 65536 count.
pub fn run(bytes: &[u8]) -> Result<Counts, Fault>
    ensures { result ≡ run_of bytes.now }
{
    with_running(first(bytes), true, |processor| counts_after(processor))
}

/// The line of a run: its six counts, or for a refused image the number of the refusal; with a line feed.
#[derive(Clone, Copy)]
pub struct RunLine(pub Result<Counts, Fault>);

impl fmt::Display for RunLine {
    ghost output = { λ x. Some (run_report x.0) };

    fn fmt<W: fmt::Write>(&self, f: &mut fmt::Formatter<W>) -> fmt::Result {
        match self.0 {
            Ok(counts) => writeln!(f, "{counts}"),
            Err(fault) => writeln!(f, "{}", fault.cause.number()),
        }
    }
}

/// The line of a run of an image.
pub fn run_line(bytes: &[u8]) -> RunLine
    ensures run { result.0 ≡ run_of bytes.now }
    ensures text { ⟦<RunLine as fmt::Display>⟧.output result ≡ Some (run_line bytes.now) }
    ensures shown { Shown }
{
    RunLine(run(bytes))
}
