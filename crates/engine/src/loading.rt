//! Loading an image into an idle processor.
ghost use Rattle.std.specs.Prelude.{◌≡◌, length};
ghost use Rattle.image.specs.Reading.{counted, verdict};
ghost use Rattle.engine.specs.View.{seen};
ghost use Rattle.engine.specs.Loads.{Law, load_after, stored};

use crate::processor::{Idle, Processor};
use image::{Fault, Reader, Record};
use levels::Level;
use memory::Memory;

impl<M: Memory> Processor<Idle, M> {
    // Stores a record that the check has let through.
    fn store(&mut self, item: Record)
        ensures after { seen M.words self.new ≡ stored item (seen M.words self.old) }
        ensures outside { M.outer self.new.memory ≡ M.outer self.old.memory }
    {
        match item {
            Record::Word { address, word } => self.memory.store(address, word),
            Record::Protection { number, word } => {
                let _ = self.state.protection.set(number, word);
            }
            Record::Register { number, word } => {
                let _ = self.state.work.put(number, word);
            }
            Record::Level { number, state } => self.state.levels.put(number, Level::preset(state)),
        }
    }

    /// Loads an image, and answers how many records it has; a refused one is not loaded at all, and one of no bytes has
    /// none.
    pub fn load(&mut self, bytes: &[u8]) -> Result<usize, Fault>
        ensures answer { result ≡ counted 0 (verdict (length (M.words self.old.memory)) bytes.now) }
        ensures after { seen M.words self.new ≡ load_after (verdict (length (M.words self.old.memory)) bytes.now) (seen M.words self.old) }
        ensures outside { M.outer self.new.memory ≡ M.outer self.old.memory }
        ensures law { Law bytes.now result (seen M.words self.old) (seen M.words self.new) }
    {
        let count = image::check(bytes, self.memory.size())?;
        let mut reader = Reader::new(bytes);
        while let Some(record) = reader.next()? {
            self.store(record);
        }
        Ok(count)
    }
}
