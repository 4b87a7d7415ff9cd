//! Sixteen records, of which one is lent at a time.
#![tactic(auto, unfolding(crate::specs::Banks::records))]

ghost use Rattle.std.specs.Prelude.{◌≡◌, ◌∷◌, replicate, slice_set};
ghost use Rattle.std.specs.Borrow.{sem};
ghost use Rattle.std.specs.Option.{option_map};
ghost use Rattle.std.specs.List.{slice_get};
ghost use Rattle.levels.specs.Banks.{records, LendsRecord};
ghost use Rattle.levels.specs.Levels.{controlled, level_at, told};

use crate::level::{Event, Level, LevelControl};

/// A record for each level, in a field of its own.
#[derive(Drop)]
pub(crate) struct Bank {
    l0: Level,
    l1: Level,
    l2: Level,
    l3: Level,
    l4: Level,
    l5: Level,
    l6: Level,
    l7: Level,
    l8: Level,
    l9: Level,
    l10: Level,
    l11: Level,
    l12: Level,
    l13: Level,
    l14: Level,
    l15: Level,
}

impl Bank {
    /// One record for level 0, another for each of the others.
    pub(crate) fn new(first: Level, other: Level) -> Bank
        ensures { records result ≡ first ∷ replicate 15 other }
    {
        Bank {
            l0: first,
            l1: other,
            l2: other,
            l3: other,
            l4: other,
            l5: other,
            l6: other,
            l7: other,
            l8: other,
            l9: other,
            l10: other,
            l11: other,
            l12: other,
            l13: other,
            l14: other,
            l15: other,
        }
    }

    /// The record of a level, lent, or `None` above level 15.
    pub(crate) fn get(&mut self, number: u8) -> Option<&mut Level>
        ensures* follows { sem 𝓛 (LendsRecord self.entry number result) }
        ensures value { option_map (λ x. x.now) result ≡ slice_get (records self.old) number }
    {
        match number {
            0 => Some(&mut self.l0),
            1 => Some(&mut self.l1),
            2 => Some(&mut self.l2),
            3 => Some(&mut self.l3),
            4 => Some(&mut self.l4),
            5 => Some(&mut self.l5),
            6 => Some(&mut self.l6),
            7 => Some(&mut self.l7),
            8 => Some(&mut self.l8),
            9 => Some(&mut self.l9),
            10 => Some(&mut self.l10),
            11 => Some(&mut self.l11),
            12 => Some(&mut self.l12),
            13 => Some(&mut self.l13),
            14 => Some(&mut self.l14),
            15 => Some(&mut self.l15),
            _ => None,
        }
    }

    /// The sixteen records in the order of their levels.
    pub(crate) fn all(&self) -> [Level; 16]
        ensures { result ≡ records self.now }
    {
        [
            self.l0, self.l1, self.l2, self.l3, self.l4, self.l5, self.l6, self.l7, self.l8,
            self.l9, self.l10, self.l11, self.l12, self.l13, self.l14, self.l15,
        ]
    }

    /// The record of a level; above level 15 it is disarmed and disabled.
    pub(crate) fn level(&self, number: u8) -> Level
        ensures { result ≡ level_at (records self.now) number }
    {
        self.all().get(number as usize).copied().unwrap_or_default()
    }

    /// Sets the record of a level, or does nothing above level 15; the other fifteen stay.
    pub(crate) fn put(&mut self, number: u8, level: Level)
        ensures { records self.new ≡ slice_set (records self.old) number level }
    {
        if let Some(lent) = self.get(number) {
            *lent = level;
        }
    }

    /// Hands an event to a level, or does nothing above level 15; the other fifteen stay.
    pub(crate) fn tell(&mut self, number: u8, event: Event)
        ensures { records self.new ≡ told number event (records self.old) }
    {
        if let Some(level) = self.get(number) {
            level.take(event);
        }
    }

    /// Hands a control of WD to a level, or does nothing above level 15; the other fifteen stay.
    pub(crate) fn control(&mut self, number: u8, control: LevelControl)
        ensures { records self.new ≡ slice_set (records self.old) number (controlled control (level_at (records self.old) number)) }
    {
        if let Some(level) = self.get(number) {
            level.control(control);
        }
    }
}
