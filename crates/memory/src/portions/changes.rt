//! What makes, reads and changes a plan.
ghost use Rattle.std.specs.Prelude.{◌≡◌, ◌<◌, slice_index};
ghost use Rattle.std.specs.List.{range_with_len};
ghost use Rattle.memory.specs.Changes.{held_below, set_answer, set_after, exchange_answer, exchange_after};

use super::Plan;
use crate::refusals::PlanRefusal;

impl Plan {
    /// Block b has portion b.
    pub fn new() -> Plan
        ensures { result.portions ≡ range_with_len 0 8 }
    {
        Plan {
            portions: [0, 1, 2, 3, 4, 5, 6, 7],
        }
    }

    /// The portions of blocks 0 to 7.
    pub fn portions(&self) -> [u8; 8]
        ensures { result ≡ self.now.portions }
    {
        let Plan { portions, .. } = *self;
        portions
    }

    /// The portion of a block.
    pub(crate) fn portion(&self, block: u8) -> u8
        requires { block < 8 }
        ensures { result ≡ slice_index self.now.portions block }
    {
        self.portions[block as usize]
    }

    // Whether another block has the portion.
    fn held(&self, block: u8, portion: u8) -> bool
        ensures { result ≡ held_below self.now.portions block portion 8 }
    {
        self.portions.iter().enumerate().any(|(other, theirs)| other != block as usize
            && *theirs == portion)
    }

    /// Gives a block a portion.
    pub fn set(&mut self, block: u8, portion: u8) -> Result<(), PlanRefusal>
        ensures answer { result ≡ set_answer self.old.portions block portion }
        ensures after { self.new.portions ≡ set_after self.old.portions block portion }
    {
        if block > 7 {
            return Err(PlanRefusal::NoBlock);
        }
        if portion > 31 {
            return Err(PlanRefusal::NoPortion);
        }
        if self.held(block, portion) {
            return Err(PlanRefusal::PortionHeld);
        }
        self.portions[block as usize] = portion;
        Ok(())
    }

    /// Exchanges the portions of two blocks.
    // This is one call, since each portion is held until then.
    pub fn exchange(&mut self, first: u8, second: u8) -> Result<(), PlanRefusal>
        ensures answer { result ≡ exchange_answer first second }
        ensures after { self.new.portions ≡ exchange_after self.old.portions first second }
    {
        if first > 7 || second > 7 {
            return Err(PlanRefusal::NoBlock);
        }
        self.portions.swap(first as usize, second as usize);
        Ok(())
    }
}
