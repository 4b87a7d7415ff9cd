//! A processor, all but its memory.
ghost use Rattle.std.specs.Prelude.{◌≡◌};
ghost use Rattle.machine.specs.View.{cpu_of};
ghost use Rattle.machine.specs.State.{initial};

use crate::protection::Protection;
use crate::work::Work;
use levels::{Inhibits, Level, LevelState, Levels};

/// The wait mark, which makes steps idle, or the exit mark, which makes the next LDX an exit; they are never set both.
#[derive(Clone, Copy, PartialEq, Eq, Debug)]
pub enum Mark {
    Unset,
    Wait,
    Exit,
}

/// What a violation was.
#[derive(Clone, Copy, PartialEq, Eq, Debug)]
pub enum ViolationKind {
    /// The background was about to fetch from a protected page.
    Entry,
    /// A background instruction was a privileged RD or WD.
    Operation,
    /// A background instruction was to store into a protected page.
    Store,
}

/// A violation: its kind, the address that it came from, and the address or function that it aimed at.
#[derive(Clone, Copy, PartialEq, Eq, Debug)]
pub struct Violation {
    pub kind: ViolationKind,
    pub place: u16,
    pub aim: u16,
}

/// The registers, indicators, protection registers, inhibits, levels, mark, last address, latest violation and protect switch.
#[derive(Drop)]
pub struct State {
    pub work: Work,
    pub protection: Protection,
    pub inhibits: Inhibits,
    pub levels: Levels,
    pub pp: bool,
    pub mark: Mark,
    pub last: u16,
    pub violation: Option<Violation>,
    pub switch: bool,
}

impl State {
    /// A new processor: all zero, with level 0 armed and enabled and the others disarmed and disabled.
    pub fn new() -> State
        ensures { cpu_of result ≡ initial }
    {
        let first = Level {
            state: LevelState::Armed,
            enabled: true,
        };
        State {
            work: Work::default(),
            protection: Protection::new(),
            inhibits: Inhibits::default(),
            levels: Levels::new(first, Level::default()),
            pp: false,
            mark: Mark::Unset,
            last: 0,
            violation: None,
            switch: false,
        }
    }
}
