//! The lines of a listing that are not a record's or a fault's, each without its line feed.
ghost use Rattle.std.specs.Prelude.{Some};
ghost use Rattle.listing.specs.Text.{loaded_line, map_line};

use image::Hex;
use std::fmt;

/// How many records were loaded.
#[derive(Clone, Copy)]
pub struct LoadedLine(pub usize);

impl fmt::Display for LoadedLine {
    ghost output = { λ x. Some (loaded_line x.0) };

    fn fmt<W: fmt::Write>(&self, f: &mut fmt::Formatter<W>) -> fmt::Result {
        let count = self.0;
        write!(f, "loaded {count} records")
    }
}

/// The sixteen protection registers.
#[derive(Clone, Copy)]
pub struct MapLine(pub [u16; 16]);

impl fmt::Display for MapLine {
    ghost output = { λ x. Some (map_line x.0) };

    fn fmt<W: fmt::Write>(&self, f: &mut fmt::Formatter<W>) -> fmt::Result {
        write!(f, "map")?;
        for word in &self.0 {
            write!(f, " {}", Hex(*word))?;
        }
        Ok(())
    }
}
