//! The law of isolation, about the meaning of the machine.
#![tactic(auto)]

ghost use Rattle.std.specs.Prelude.{◌≡◌, true};
ghost use Rattle.isolation.specs.Examples.{Agrees, GoesOn, Stalls, Violates};
ghost use Rattle.isolation.specs.Isolation.{Isolation};
ghost use Rattle.isolation.specs.Needed.{Needed};
ghost use Rattle.isolation.specs.Sharp.{Sharp};
ghost use Rattle.isolation.specs.Wider.{Wider};

/// The law holds of every machine that is set going with the protect switch on; closed examples meet its premises. With fewer
/// premises it holds of every machine: none of those can go, and each conclusion excludes what it is meant to.
pub fn isolation_stands() -> bool
    ensures answer { result ≡ true }
    ensures law { Isolation }
    ensures wider { Wider }
    ensures needed { Needed }
    ensures sharp { Sharp }
    ensures violates { Violates }
    ensures goes_on { GoesOn }
    ensures agrees { Agrees }
    ensures stalls { Stalls }
{
    true
}
