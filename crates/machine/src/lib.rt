//! The state of a Sigma 3: its registers, indicators, protection registers and levels.
#![tactic(auto)]

mod acts;
mod call;
mod instruction;
mod protection;
mod refusal;
mod state;
mod sum;
mod text;
mod work;

pub use call::{Answer, Call, Counts, LONGEST_RUN, Outcome, Signalled};
pub use instruction::{
    Condition, Instruction, Join, ReadFunction, Transfer, WriteFunction, addresses, decode,
    relative,
};
pub use protection::Protection;
pub use refusal::Refusal;
pub use state::{Mark, State, Violation, ViolationKind};
pub use sum::{Sum, add, subtract};
pub use work::Work;
