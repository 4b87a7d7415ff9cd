//! Texts of violations, signals and counts.
ghost use Rattle.std.specs.Prelude.{Some};
ghost use Rattle.machine.specs.Text.{counts_line, kind_name, signalled_name};

use crate::call::{Counts, Signalled};
use crate::state::ViolationKind;
use std::fmt;

impl fmt::Display for ViolationKind {
    ghost output = { λ kind. Some (kind_name kind) };

    fn fmt<W: fmt::Write>(&self, f: &mut fmt::Formatter<W>) -> fmt::Result {
        f.write_str(match *self {
            ViolationKind::Entry => "entry",
            ViolationKind::Operation => "operation",
            ViolationKind::Store => "store",
        })
    }
}

impl fmt::Display for Signalled {
    ghost output = { λ signalled. Some (signalled_name signalled) };

    fn fmt<W: fmt::Write>(&self, f: &mut fmt::Formatter<W>) -> fmt::Result {
        f.write_str(match *self {
            Signalled::Waiting => "waiting",
            Signalled::Dropped => "dropped",
        })
    }
}

impl fmt::Display for Counts {
    ghost output = { λ counts. Some (counts_line counts) };

    fn fmt<W: fmt::Write>(&self, f: &mut fmt::Formatter<W>) -> fmt::Result {
        let Counts {
            done,
            not_carried,
            violations,
            stalls,
            entries,
            idles,
        } = *self;
        write!(
            f,
            "{done} {not_carried} {violations} {stalls} {entries} {idles}"
        )
    }
}
