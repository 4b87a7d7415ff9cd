//! What many runs come to.
use machine::Counts;
use std::fmt;

/// The counts of all runs, and a checksum of the words seen.
#[derive(Default, Drop)]
pub(crate) struct Sums {
    done: u64,
    violations: u64,
    others: u64,
    check: u64,
}

impl Sums {
    /// Adds the counts of a run.
    pub(crate) fn count(&mut self, counts: Counts) {
        let others = [
            counts.not_carried,
            counts.stalls,
            counts.entries,
            counts.idles,
        ];
        self.done = self.done.wrapping_add(u64::from(counts.done));
        self.violations = self.violations.wrapping_add(u64::from(counts.violations));
        self.others = others
            .into_iter()
            .map(u64::from)
            .fold(self.others, u64::wrapping_add);
    }

    /// Mixes words into the checksum.
    pub(crate) fn mix(&mut self, words: &[u16]) {
        self.check = words.iter().fold(self.check, |check, word| {
            check.wrapping_mul(31).wrapping_add(u64::from(*word))
        });
    }
}

impl fmt::Display for Sums {
    fn fmt<W: fmt::Write>(&self, f: &mut fmt::Formatter<W>) -> fmt::Result {
        write!(
            f,
            "done {}, violations {}, others {}, checksum {:016x}",
            self.done, self.violations, self.others, self.check
        )
    }
}
