//! The text of records and faults.
ghost use Rattle.std.specs.Prelude.{◌≡◌, Some};
ghost use Rattle.image.specs.Text.{fault_line, hex, layer_name, record_line, state_name};

use crate::{Fault, Layer, Record};
use std::fmt;

/// A word that is shown as four hexadecimal digits.
#[derive(Clone, Copy)]
pub struct Hex(pub u16);

impl fmt::Display for Hex {
    ghost output = { λ x. Some (hex x.0) };

    #[tactic(auto, using(crate::proofs::Digits::written))]
    fn fmt<W: fmt::Write>(&self, f: &mut fmt::Formatter<W>) -> fmt::Result {
        let word = self.0;
        write!(f, "{word:04x}")
    }
}

impl fmt::Display for Layer {
    ghost output = { λ x. Some (layer_name x) };

    fn fmt<W: fmt::Write>(&self, f: &mut fmt::Formatter<W>) -> fmt::Result {
        f.write_str(match self {
            Layer::Reading => "reading",
            Layer::Storing => "storing",
        })
    }
}

impl fmt::Display for Fault {
    ghost output = { λ x. Some (fault_line x) };

    fn fmt<W: fmt::Write>(&self, f: &mut fmt::Formatter<W>) -> fmt::Result {
        let number = self.cause.number();
        let layer = self.layer();
        write!(f, "refused {number} {layer} at {}", self.place)
    }
}

// What a record makes of a level.
fn state_name(state: u8) -> &'static str
    ensures { result.now ≡ state_name state }
{
    match state {
        0 => "disarmed",
        2 => "enabled",
        _ => "armed",
    }
}

/// A level's number above 2, which no accepted image has, is shown as armed.
impl fmt::Display for Record {
    ghost output = { λ x. Some (record_line x) };

    fn fmt<W: fmt::Write>(&self, f: &mut fmt::Formatter<W>) -> fmt::Result {
        match *self {
            Record::Word { address, word } => write!(f, "word {} {}", Hex(address), Hex(word)),
            Record::Protection { number, word } => write!(f, "protection {number} {}", Hex(word)),
            Record::Register { number, word } => write!(f, "register {number} {}", Hex(word)),
            Record::Level { number, state } => write!(f, "level {number} {}", state_name(state)),
        }
    }
}
