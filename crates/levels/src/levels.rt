//! The sixteen levels.
ghost use Rattle.std.specs.Prelude.{◌≡◌, ◌∷◌, replicate, slice_set};
ghost use Rattle.levels.specs.Banks.{records};
ghost use Rattle.levels.specs.Levels.{bits_of, control_each, level_at, lowest as entering, released, told};

use crate::bank::Bank;
use crate::inhibits::Inhibits;
use crate::level::{Event, Level, LevelControl, Property};
use std::marker::Model;

/// The level records, and whether it is known that none of them waits, so that most steps need not look at them.
#[derive(Drop)]
pub struct Levels {
    bank: Bank,
    calm: bool,
}

impl Model for Levels {
    ghost use Rattle.std.specs.Prelude.{◌≡◌, true};
    ghost use Rattle.levels.specs.declared.bank.Bank.{Bank};

    ghost Value = { Bank };

    ghost use Rattle.levels.specs.Banks.{records};
    ghost use Rattle.levels.specs.Levels.{Quiet};

    ghost view = { λ x. x.bank };

    ghost invariant = { λ x. x.calm ≡ true → Quiet (records x.bank) };
}

impl Levels {
    /// One record for level 0, another for each of the others.
    pub fn new(first: Level, other: Level) -> Levels
        ensures { records result ≡ first ∷ replicate 15 other }
    {
        Levels {
            bank: Bank::new(first, other),
            calm: false,
        }
    }

    /// The record of a level; above level 15 it is disarmed and disabled.
    pub fn at(&self, number: u8) -> Level
        ensures { result ≡ level_at (records self.now) number }
    {
        self.bank.level(number)
    }

    /// Sets the record of a level, or does nothing above level 15.
    pub fn put(&mut self, number: u8, level: Level)
        ensures { records self.new ≡ slice_set (records self.old) number level }
    {
        self.calm = false;
        self.bank.put(number, level);
    }

    /// Hands an event to a level, or does nothing above level 15.
    pub fn tell(&mut self, number: u8, event: Event)
        ensures { records self.new ≡ told number event (records self.old) }
    {
        self.calm = false;
        self.bank.tell(number, event);
    }

    /// The lowest level that may enter.
    pub fn lowest(&mut self, inhibits: Inhibits) -> Option<u8>
        ensures answer { result ≡ entering 16 0 inhibits.ii inhibits.ei (records self.old) }
        ensures same { records self.new ≡ records self.old }
    {
        if self.calm {
            return None;
        }
        self.calm = !self.bank.waits();
        self.bank.lowest(inhibits)
    }

    /// Hands the exit event to the lowest active level that is not inhibited, or, where all active ones are inhibited, to the lowest
    /// of them; where none is active, all stay.
    // Exits are rare, and a step has fewer instructions where this stands apart.
    #[cold]
    pub fn release(&mut self, inhibits: Inhibits)
        ensures { records self.new ≡ released inhibits.ii inhibits.ei (records self.old) }
    {
        self.calm = false;
        self.bank.release(inhibits);
    }

    /// Hands a control of WD to each of levels 1 to 15 whose bit is 1.
    pub fn control_each(&mut self, control: LevelControl, bits: u16)
        ensures { records self.new ≡ control_each 15 1 control bits (records self.old) }
    {
        self.calm = false;
        self.bank.control_each(control, bits);
    }

    /// A word with bit k set for each level k that has a property.
    pub fn bits(&self, property: Property) -> u16
        ensures { result ≡ bits_of 16 0 property (records self.now) }
    {
        self.bank.bits(property)
    }
}
