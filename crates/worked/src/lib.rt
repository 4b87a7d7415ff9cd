//! Worked cases and laws of the machine's rules.
#![tactic(auto)]

ghost use Rattle.std.specs.Prelude.{◌≡◌, true};
ghost use Rattle.worked.specs.Calling.{Begins, Called};
ghost use Rattle.worked.specs.Cases.{Cases};
ghost use Rattle.worked.specs.Functions.{Controls, Functions};
ghost use Rattle.worked.specs.Images.{Images};
ghost use Rattle.worked.specs.Instructions.{Addresses, Branches, Copies, Instructions};
ghost use Rattle.worked.specs.Interrupts.{Entries, Exits, Levels};
ghost use Rattle.worked.specs.Laws.{Laws};
ghost use Rattle.worked.specs.Plans.{Plans};
ghost use Rattle.worked.specs.Runs.{Runs};
ghost use Rattle.worked.specs.Steps.{Steps};
ghost use Rattle.worked.specs.Violations.{Fetches, Judged, Violations};

/// The worked cases and the laws hold of the rules.
pub fn worked_cases_hold() -> bool
    ensures answer { result ≡ true }
    ensures cases { Cases }
    ensures addresses { Addresses }
    ensures instructions { Instructions }
    ensures branches { Branches }
    ensures copies { Copies }
    ensures functions { Functions }
    ensures controls { Controls }
    ensures levels { Levels }
    ensures entries { Entries }
    ensures exits { Exits }
    ensures judged { Judged }
    ensures violations { Violations }
    ensures fetches { Fetches }
    ensures begins { Begins }
    ensures called { Called }
    ensures plans { Plans }
    ensures images { Images }
    ensures laws { Laws }
    ensures steps { Steps }
    ensures runs { Runs }
{
    true
}
