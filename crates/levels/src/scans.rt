//! Going through the levels one by one.
ghost use Rattle.std.specs.Prelude.{◌≡◌};
ghost use Rattle.std.specs.List.{list_any};
ghost use Rattle.levels.specs.declared.level.Property.TheVariants.{Waiting};
ghost use Rattle.levels.specs.Banks.{records};
ghost use Rattle.levels.specs.Levels.{bits_of, control_each, has, lowest as entering, lowest_uninhibited, released};

use crate::bank::Bank;
use crate::inhibits::Inhibits;
use crate::level::{Event, Level, LevelControl, Property, Sight};
use crate::words::bit_of;

impl Bank {
    /// The lowest level that may enter.
    #[tactic(auto, using(crate::proofs::Turns::searching))]
    pub(crate) fn lowest(&self, inhibits: Inhibits) -> Option<u8>
        ensures { result ≡ entering 16 0 inhibits.ii inhibits.ei (records self.now) }
    {
        for (place, level) in self.all().iter().enumerate() {
            let number = place as u8;
            match level.sight(inhibits.cover(number)) {
                Sight::Enters => return Some(number),
                Sight::Blocks => return None,
                Sight::Passes => {}
            }
        }
        None
    }

    /// Whether a level waits.
    pub(crate) fn waits(&self) -> bool
        ensures { result ≡ list_any (has Waiting) (records self.now) }
    {
        self.all().iter().any(|level| level.has(Property::Waiting))
    }

    /// The lowest level that is active and not inhibited.
    #[tactic(auto, unfolding(crate::specs::Levels::lowest_uninhibited), using(crate::proofs::Turns::finding))]
    pub(crate) fn lowest_uninhibited(&self, inhibits: Inhibits) -> Option<u8>
        ensures { result ≡ lowest_uninhibited inhibits.ii inhibits.ei (records self.now) }
    {
        for (place, level) in self.all().iter().enumerate() {
            let number = place as u8;
            if level.has(Property::Active) && !inhibits.cover(number) {
                return Some(number);
            }
        }
        None
    }

    /// Hands the exit event to the lowest active level that is not inhibited, or else to the lowest active one.
    #[tactic(auto, unfolding(crate::specs::Levels::released))]
    pub(crate) fn release(&mut self, inhibits: Inhibits)
        ensures { records self.new ≡ released inhibits.ii inhibits.ei (records self.old) }
    {
        let exiting = self
            .lowest_uninhibited(inhibits)
            .or_else(|| self.lowest_uninhibited(Inhibits::default()));
        if let Some(number) = exiting {
            self.tell(number, Event::Exit);
        }
    }

    /// Hands a control of WD to each of levels 1 to 15 whose bit is 1, level by level.
    #[tactic(auto, using(crate::proofs::Turns::controls_none))]
    pub(crate) fn control_each(&mut self, control: LevelControl, bits: u16)
        ensures { records self.new ≡ control_each 15 1 control bits (records self.old) }
    {
        for number in 1..16u8 {
            if bit_of(bits, number) {
                self.control(number, control);
            }
        }
    }

    /// A word with bit k set for each level k that has a property.
    pub(crate) fn bits(&self, property: Property) -> u16
        ensures { result ≡ bits_of 16 0 property (records self.now) }
    {
        self.all()
            .iter()
            .fold(0, |word, level| word << 1 | level.has(property) as u16)
    }
}
