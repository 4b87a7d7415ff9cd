//! The text of an image: a line for each record, for what was loaded and for the protection registers, or for a fault.
#![tactic(auto)]

mod input;
mod lines;
mod whole;

pub use image::Hex;
pub use input::read_image;
pub use lines::{LoadedLine, MapLine};
pub use whole::{LIMIT, first, list};
