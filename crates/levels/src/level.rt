//! One interrupt level.
ghost use Rattle.std.specs.Prelude.{◌≡◌};
ghost use Rattle.levels.specs.Levels.{controlled, has, preset as numbered, sighted, taken};

/// What a level is doing.
#[derive(Clone, Copy, PartialEq, Eq, Debug, Default)]
pub enum LevelState {
    #[default]
    Disarmed,
    Armed,
    Waiting,
    Active,
}

/// What may happen to a level.
#[derive(Clone, Copy, PartialEq, Eq, Debug)]
pub enum Event {
    Disarm,
    Arm,
    Trigger,
    Enter,
    Exit,
    Violate,
}

/// What RD shows of a level.
#[derive(Clone, Copy, PartialEq, Eq, Debug)]
pub enum Property {
    Enabled,
    Waiting,
    Active,
}

/// What WD does to the levels whose bits are 1.
#[derive(Clone, Copy, PartialEq, Eq, Debug)]
pub enum LevelControl {
    Disarm,
    Arm,
    Disable,
    Enable,
    Trigger,
}

/// What a level means for those of a higher number: it enters, it blocks them, or they are looked at next.
#[derive(Clone, Copy, PartialEq, Eq, Debug)]
pub enum Sight {
    Enters,
    Blocks,
    Passes,
}

/// The record of a level: its state, and whether it is enabled.
#[derive(Clone, Copy, PartialEq, Eq, Debug, Default)]
pub struct Level {
    pub state: LevelState,
    pub enabled: bool,
}

impl Level {
    /// The record that a number of an image sets: 0 disarmed, 1 armed, 2 armed and enabled.
    pub fn preset(number: u8) -> Level
        ensures { result ≡ numbered number }
    {
        match number {
            0 => Level::default(),
            2 => Level {
                state: LevelState::Armed,
                enabled: true,
            },
            _ => Level {
                state: LevelState::Armed,
                enabled: false,
            },
        }
    }

    /// Takes an event: any pair of state and event that is not named changes nothing.
    pub(crate) fn take(&mut self, event: Event)
        ensures { self.new ≡ taken self.old event }
    {
        self.state = match (self.state, event) {
            (LevelState::Armed | LevelState::Waiting, Event::Disarm) => LevelState::Disarmed,
            (LevelState::Disarmed, Event::Arm) => LevelState::Armed,
            (LevelState::Armed, Event::Trigger) => LevelState::Waiting,
            (LevelState::Waiting, Event::Enter) => LevelState::Active,
            (LevelState::Active, Event::Exit) => LevelState::Armed,
            (LevelState::Disarmed | LevelState::Armed, Event::Violate) => LevelState::Waiting,
            (state, _) => state,
        };
    }

    /// What WD does to a level: enabling is apart from the events.
    pub(crate) fn control(&mut self, control: LevelControl)
        ensures { self.new ≡ controlled control self.old }
    {
        match control {
            LevelControl::Disarm => self.take(Event::Disarm),
            LevelControl::Arm => self.take(Event::Arm),
            LevelControl::Trigger => self.take(Event::Trigger),
            LevelControl::Disable => self.enabled = false,
            LevelControl::Enable => self.enabled = true,
        }
    }

    /// What a level means for those of a higher number.
    pub(crate) fn sight(self, inhibited: bool) -> Sight
        ensures { result ≡ sighted inhibited self }
    {
        match (inhibited, self.state, self.enabled) {
            (false, LevelState::Active, _) => Sight::Blocks,
            (false, LevelState::Waiting, true) => Sight::Enters,
            _ => Sight::Passes,
        }
    }

    /// Whether a level has a property.
    pub fn has(self, property: Property) -> bool
        ensures { result ≡ has property self }
    {
        match property {
            Property::Enabled => self.enabled,
            Property::Waiting => self.state == LevelState::Waiting,
            Property::Active => self.state == LevelState::Active,
        }
    }
}
