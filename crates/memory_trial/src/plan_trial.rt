// Changes of a plan, taken and refused.
use memory::{Plan, PlanRefusal};
use std::io;

// A plan under trial, and where each answer is printed.
#[derive(Drop)]
struct Trial<'a> {
    rt: &'a HostRuntime,
    plan: Plan,
}

impl Trial<'_> {
    fn show_answer(&self, answer: Result<(), PlanRefusal>) -> io::Result<()> {
        match answer {
            Ok(()) => println!(self.rt; "taken"),
            Err(refusal) => {
                let number = refusal.number();
                println!(self.rt; "refused by {number}, {refusal:?}")
            }
        }
    }

    fn set(&mut self, block: u8, portion: u8) -> io::Result<()> {
        print!(self.rt; "plan: block {block} to portion {portion} is ")?;
        let answer = self.plan.set(block, portion);
        self.show_answer(answer)
    }

    fn exchange(&mut self, first: u8, second: u8) -> io::Result<()> {
        print!(self.rt; "plan: exchange of blocks {first} and {second} is ")?;
        let answer = self.plan.exchange(first, second);
        self.show_answer(answer)
    }

    fn show_portions(&self) -> io::Result<()> {
        let portions = self.plan.portions();
        println!(self.rt; "plan: portions {portions:?}")
    }
}

pub(crate) fn run(rt: &HostRuntime) -> io::Result<()> {
    let mut trial = Trial {
        rt,
        plan: Plan::new(),
    };
    trial.show_portions()?;
    for (block, portion) in [(3, 9), (4, 9), (8, 20), (5, 32), (8, 32), (3, 9)] {
        trial.set(block, portion)?;
    }
    trial.show_portions()?;
    for (first, second) in [(0, 3), (2, 2), (1, 8), (8, 1)] {
        trial.exchange(first, second)?;
    }
    trial.show_portions()
}
