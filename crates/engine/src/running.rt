//! Runs, signals, and calls as values.
ghost use Rattle.std.specs.Prelude.{◌≡◌, true, IfOk};
ghost use Rattle.isolation.specs.Isolation.{Confined};
ghost use Rattle.isolation.specs.Steps.{Each};
ghost use Rattle.machine.specs.Calls.{after_call, after_calls, answer as answered, as_answer, run_answer, run_trail, signal_answer, tallied, total};
ghost use Rattle.machine.specs.Step.{step as stepped};
ghost use Rattle.machine.specs.Tallies.{Room, capped_tally};
ghost use Rattle.engine.specs.View.{seen};

use crate::processor::{Idle, Processor, Running};
use levels::{Event, LevelState};
use machine::{Answer, Call, Counts, LONGEST_RUN, Refusal, Signalled};
use memory::Memory;

impl<M: Memory> Processor<Running, M> {
    /// At most 1,000,000 steps, and how many were of each kind.
    pub fn run(&mut self, steps: u32) -> Result<Counts, Refusal>
        ensures answer { result ≡ run_answer steps (seen M.words self.old) }
        ensures after { seen M.words self.new ≡ after_call (Call.Run steps) (seen M.words self.old) }
        ensures outside { M.outer self.new.memory ≡ M.outer self.old.memory }
        ensures sum { IfOk result (λ n. total n ≡ steps) }
        ensures confined { (seen M.words self.old).cpu.switch ≡ true → Each Confined (run_trail steps (seen M.words self.old)) }
    {
        if steps > LONGEST_RUN {
            return Err(Refusal::RunTooLong);
        }
        let mut counts = Counts::default();
        for _ in 0..steps {
            self.count_step(&mut counts);
        }
        Ok(counts)
    }

    // One step more of a run, and counted.
    fn count_step(&mut self, counts: &mut Counts)
        ensures capped { counts.new ≡ capped_tally (stepped (seen M.words self.old)).outcome counts.old }
        ensures exact { Room counts.old → counts.new ≡ tallied (stepped (seen M.words self.old)).outcome counts.old }
        ensures after { seen M.words self.new ≡ (stepped (seen M.words self.old)).after }
        ensures outside { M.outer self.new.memory ≡ M.outer self.old.memory }
    {
        let outcome = self.step();
        counts.tally(outcome);
    }

    /// A signal to level 1 to 15.
    pub fn signal(&mut self, level: u8) -> Result<Signalled, Refusal>
        ensures answer { result ≡ signal_answer level (seen M.words self.old) }
        ensures after { seen M.words self.new ≡ after_call (Call.Signal level) (seen M.words self.old) }
        ensures outside { M.outer self.new.memory ≡ M.outer self.old.memory }
    {
        if level > 15 {
            return Err(Refusal::NoLevel);
        }
        if level == 0 {
            return Err(Refusal::LevelZero);
        }
        let signalled = match self.state.levels.at(level).state {
            LevelState::Armed => Signalled::Waiting,
            _ => Signalled::Dropped,
        };
        self.state.levels.tell(level, Event::Trigger);
        Ok(signalled)
    }

    // Makes a call, or says why it is refused.
    fn carry_out(&mut self, call: Call) -> Result<Answer, Refusal>
        ensures answer { as_answer (λ x. x) result ≡ answered call (seen M.words self.old) }
        ensures after { seen M.words self.new ≡ after_call call (seen M.words self.old) }
        ensures outside { M.outer self.new.memory ≡ M.outer self.old.memory }
    {
        Ok(match call {
            Call::Step => Answer::Stepped(self.step()),
            Call::Run(steps) => Answer::Ran(self.run(steps)?),
            Call::Signal(level) => Answer::Signalled(self.signal(level)?),
            Call::Registers => Answer::Registers(self.registers()),
            Call::Protection => Answer::Protection(self.protection()),
            Call::Violation => Answer::Violation(self.violation()),
            Call::Word(address) => Answer::Word(self.word(address)?),
        })
    }

    /// Makes a call, and answers as the call itself does.
    pub fn perform(&mut self, call: Call) -> Answer
        ensures answer { result ≡ answered call (seen M.words self.old) }
        ensures after { seen M.words self.new ≡ after_call call (seen M.words self.old) }
        ensures outside { M.outer self.new.memory ≡ M.outer self.old.memory }
    {
        self.carry_out(call).unwrap_or_else(Answer::Refused)
    }

    /// Makes calls in their order.
    pub fn perform_all(&mut self, calls: &[Call])
        ensures after { seen M.words self.new ≡ after_calls calls.now (seen M.words self.old) }
        ensures outside { M.outer self.new.memory ≡ M.outer self.old.memory }
    {
        for call in calls {
            let _ = self.perform(*call);
        }
    }

    /// Makes the processor idle, with all that it holds.
    pub fn halt(self) -> Processor<Idle, M>
        ensures after { seen M.words result ≡ seen M.words self }
        ensures memory { result.memory ≡ self.memory }
    {
        self.with_mode(Idle)
    }
}
