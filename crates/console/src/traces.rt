//! A trace of an image.
ghost use Rattle.std.specs.Prelude.{◌≡◌, IfOk, string_bytes, OnOk};
ghost use Rattle.machine.specs.Tallies.{Room};
ghost use Rattle.engine.specs.View.{seen};
ghost use Rattle.console.specs.Traces.{at, begun, ended, signal_at, signals_at, step_at, trace_of, trace_text};

use crate::lines::{SignalLine, StepLine, ViolationLine};
use crate::signals::Signal;
use crate::start::with_running;
use engine::{Processor, Running};
use listing::first;
use machine::{Counts, LONGEST_RUN, Refusal};
use memory::Memory;
use std::alloc::{AllocError, Global};

// A trace so far: the processor that makes it, its text, and what its steps were.
#[derive(Drop)]
struct Tracer<'a, M> {
    processor: &'a mut Processor<Running, M>,
    text: String,
    counts: Counts,
}

impl<'a, M: Memory> Tracer<'a, M> {
    // A trace that begins.
    fn new(heap: Global, processor: &'a mut Processor<Running, M>) -> Tracer<'a, M>
        ensures { at M.words result ≡ begun (seen M.words processor.old) }
    {
        Tracer {
            processor,
            text: String::new(heap),
            counts: Counts::default(),
        }
    }

    // Makes a signal, and writes its line.
    fn signal(&mut self, level: u8) -> Result<(), AllocError>
        ensures { OnOk result (at M.words self.new ≡ signal_at level (at M.words self.old)) }
    {
        let answer = self.processor.signal(level);
        writeln!(self.text, "{}", SignalLine { level, answer })
    }

    // Makes the signals that are given for a step.
    fn signals(&mut self, signals: &[Signal], step: u32) -> Result<(), AllocError>
        ensures { OnOk result (at M.words self.new ≡ signals_at step signals.now (at M.words self.old)) }
    {
        for signal in signals {
            if signal.step == step {
                self.signal(signal.level)?;
            }
        }
        Ok(())
    }

    // Makes a step, counts it, and writes its line.
    fn step(&mut self, number: u32) -> Result<(), AllocError>
        requires { Room self.old.counts }
        ensures { OnOk result (at M.words self.new ≡ step_at number (at M.words self.old)) }
    {
        let before = self.processor.registers();
        let outcome = self.processor.step();
        let after = self.processor.registers();
        self.counts.tally(outcome);
        let line = StepLine {
            number,
            outcome,
            before: &before,
            after: &after,
        };
        writeln!(self.text, "{line}")
    }

    // The text of a trace at its end: with the counts and the latest violation.
    fn end(mut self) -> Result<String, AllocError>
        ensures { IfOk result (λ s. string_bytes s ≡ ended (at M.words self.entry)) }
    {
        let counts = self.counts;
        let violation = ViolationLine(self.processor.violation());
        writeln!(self.text, "{counts}")?;
        writeln!(self.text, "{violation}")?;
        Ok(self.text)
    }
}

// The text of steps of a processor; as a run does, it refuses more than 1,000,000.
fn steps_text<M: Memory>(
    heap: Global,
    processor: &mut Processor<Running, M>,
    steps: u32,
    signals: &[Signal],
) -> Result<String, AllocError>
    ensures { IfOk result (λ s. string_bytes s ≡ trace_of steps signals.now (seen M.words processor.old)) }
{
    if steps > LONGEST_RUN {
        return format!(in heap; "refused {}\n", Refusal::RunTooLong.number());
    }
    let mut tracer = Tracer::new(heap, processor);
    for number in 0..steps {
        tracer.signals(signals, number)?;
        tracer.step(number)?;
    }
    tracer.end()
}

/// The trace of an image, loaded into a new processor over 8192 zero words: a line for each signal and each step, the
/// counts, and the latest violation; or the line of the fault. Signals for steps that are not made are left out.
pub fn trace(
    heap: Global,
    bytes: &[u8],
    steps: u32,
    protect: bool,
    signals: &[Signal],
) -> Result<String, AllocError>
    ensures { IfOk result (λ s. string_bytes s ≡ trace_text steps protect signals.now bytes.now) }
{
    let traced = with_running(first(bytes), protect, |processor| {
        steps_text(heap, processor, steps, signals)
    });
    match traced {
        Ok(text) => text,
        Err(fault) => format!(in heap; "{fault}\n"),
    }
}
