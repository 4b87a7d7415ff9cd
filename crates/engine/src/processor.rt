//! The processor, by its state.
ghost use Rattle.std.specs.Prelude.{◌≡◌};

use machine::State;

/// The state of a processor that takes deposits and images.
#[derive(Drop)]
pub struct Idle;

/// The state of a processor that takes steps, runs and signals.
#[derive(Drop)]
pub struct Running;

/// A processor in the state `K` that owns its memory. It is neither copied nor dropped: it hands its memory back.
pub struct Processor<K, M> {
    pub(crate) state: State,
    pub(crate) memory: M,
    pub(crate) mode: K,
}

impl<K: Drop, M> Processor<K, M> {
    // The same processor in another state.
    pub(crate) fn with_mode<L>(self, mode: L) -> Processor<L, M>
        ensures { result ≡ record { state = self.state; memory = self.memory; mode = mode } }
    {
        let Processor {
            state,
            memory,
            mode: _,
        } = self;
        Processor {
            state,
            memory,
            mode,
        }
    }
}
