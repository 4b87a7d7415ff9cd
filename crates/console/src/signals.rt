//! A signal, and its text.
use std::num::ParseIntError;
use std::str::FromStr;

/// A signal to a level, before a step; steps are counted from 0.
#[derive(Clone, Copy)]
pub struct Signal {
    pub step: u32,
    pub level: u8,
}

/// The error of a text that is no signal.
#[derive(Clone, Copy, PartialEq, Eq, Debug)]
pub struct NoSignal;

impl From<ParseIntError> for NoSignal {
    fn from(_: ParseIntError) -> NoSignal {
        NoSignal
    }
}

impl FromStr for Signal {
    type Err = NoSignal;

    ghost use Rattle.console.specs.Signals.{ParsesSignal};

    ghost from_str_gives = { ParsesSignal };

    // The text is STEP:LEVEL.
    fn from_str(text: &str) -> Result<Signal, NoSignal> {
        let (step, level) = text.split_once(':').ok_or(NoSignal)?;
        Ok(Signal {
            step: step.parse()?,
            level: level.parse()?,
        })
    }
}
