//! Prints a trace of the image on standard input.
//!
//! The image of the run beside this file protects pages 1, 2, 6 and 7, arms and enables level 5, and sets P to 0880.
//! In the background, 0880 loads A, 0881 adds 1 to it, 0882 stores it into protected 0200, 0883 copies it to T, 0884 has a
//! code that is not carried, 0885 reads a protection register, and 0886 branches to protected 0602. Level 0 steps
//! over the violation by its status words at 0600 and exits; level 5 exits at once by those at 0700.
#![tactic(auto)]

ghost use Rattle.std.specs.Prelude.{◌≡◌, ◌≢◌, IfSome, MatchResult, drop, if◌then◌else◌, codes, is_some, slice_get, string_bytes};

use console::Signal;
use std::alloc::{AllocError, Global};
use std::str::FromStr;
use std::{env, io};

// What the arguments ask for.
#[derive(Drop)]
struct Arguments {
    steps: u32,
    protect: bool,
    signals: Vec<Signal>,
}

// The state of the protect switch.
#[derive(Clone, Copy)]
struct Switch(bool);

// The error of a word that is no state of a switch.
#[derive(Clone, Copy)]
struct NoSwitch;

impl FromStr for Switch {
    type Err = NoSwitch;

    ghost from_str_gives = { λ word r. MatchResult r (λ x. word ≡ (if x.0 then codes "on" else codes "off")) (λ _. (word ≢ codes "on") × (word ≢ codes "off")) };

    fn from_str(word: &str) -> Result<Switch, NoSwitch> {
        match word {
            "on" => Ok(Switch(true)),
            "off" => Ok(Switch(false)),
            _ => Err(NoSwitch),
        }
    }
}

// The first word as a value, if it is the text of one, and the words that are left.
fn first_as<T: FromStr>(words: &[String]) -> (Option<T>, &[String])
where
    T::Err: Drop,
    ensures value { IfSome result.0 (λ x. IfSome (slice_get words.now 0) (λ word. T.from_str_gives (string_bytes word) (Ok x))) }
    ensures left { result.1.now ≡ drop (if is_some result.0 then 1 else 0) words.now }
{
    if let Some((first, left)) = words.split_first() {
        if let Ok(value) = first.as_str().parse() {
            return (Some(value), left);
        }
    }
    (None, words)
}

// What the words ask for; none where a word fits nothing.
fn parsed(heap: Global, words: &[String]) -> Result<Option<Arguments>, AllocError> {
    let (steps, words) = first_as(words);
    let (switch, words) = first_as(words);
    let mut signals = Vec::new(heap);
    for word in words {
        match word.as_str().parse() {
            Ok(signal) => signals.push(signal)?,
            Err(_) => return Ok(None),
        }
    }
    let Switch(protect) = switch.unwrap_or(Switch(true));
    Ok(Some(Arguments {
        steps: steps.unwrap_or(100),
        protect,
        signals,
    }))
}

fn main(rt: HostRuntime) -> io::Result<()> {
    let heap = rt.alloc();
    // The first word is the program's name.
    let words: Vec<String> = env::args(&rt)?.skip(1).collect(heap)?;
    let Some(arguments) = parsed(heap, words.as_slice())? else {
        return rt.println("usage: s3trace [STEPS] [on|off] [STEP:LEVEL ..]");
    };
    let bytes = listing::read_image(heap, rt.stdin())?;
    rt.print(console::trace(
        heap,
        bytes.as_slice(),
        arguments.steps,
        arguments.protect,
        arguments.signals.as_slice(),
    )?)
}
