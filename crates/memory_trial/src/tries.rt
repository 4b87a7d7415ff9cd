// What the trials of all memories share.
ghost use Rattle.std.specs.Prelude.{◌≡◌, ◌-◌, length, slice_set};
ghost use Rattle.memory.specs.Fetches.{fetched_at};

use memory::Memory;
use std::{fmt, io};

// What a fetch answered, for the reader: the word, or that there is none.
#[derive(Clone, Copy)]
pub(crate) struct Fetched(pub(crate) Option<u16>);

impl fmt::Display for Fetched {
    fn fmt<W: fmt::Write>(&self, f: &mut fmt::Formatter<W>) -> fmt::Result {
        match self.0 {
            Some(word) => write!(f, "Word({word})"),
            None => write!(f, "Absent"),
        }
    }
}

// A store, and then a fetch at the same address.
pub(crate) fn tried<M: Memory>(memory: &mut M, address: u16, word: u16) -> Option<u16>
    ensures answer { result ≡ fetched_at (slice_set (M.words memory.old) address word) address }
    ensures after { M.words memory.new ≡ slice_set (M.words memory.old) address word }
    ensures outside { M.outer memory.new ≡ M.outer memory.old }
{
    memory.store(address, word);
    memory.fetch(address)
}

// The last address, or 0 where there is none.
pub(crate) fn last<M: Memory>(memory: &M) -> u16
    ensures { result ≡ length (M.words memory.now) - 1 }
{
    memory.size().saturating_sub(1) as u16
}

// The size, and at each address what is fetched after a store: 1 at the first, 2 at the second and so on.
pub(crate) fn show<M: Memory>(
    rt: &HostRuntime,
    memory: &mut M,
    addresses: &[u16],
) -> io::Result<()> {
    let size = memory.size();
    print!(rt; "size {size}")?;
    for (address, word) in addresses.iter().zip(1u16..) {
        let fetched = Fetched(tried(memory, *address, word));
        print!(rt; ", at {address} {fetched}")?;
    }
    Ok(())
}
