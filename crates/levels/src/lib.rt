//! The sixteen interrupt levels: what events make of one, which one may enter, and which one exits.
#![tactic(auto)]

mod bank;
mod inhibits;
mod level;
mod levels;
mod scans;
mod words;

pub use inhibits::Inhibits;
pub use level::{Event, Level, LevelControl, LevelState, Property, Sight};
pub use levels::Levels;
pub use words::bit_of;
