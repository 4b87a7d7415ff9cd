//! The processor over any memory: deposits, images, looks, steps, runs and signals.
#![tactic(auto)]

mod idle;
mod loading;
mod looks;
mod processor;
mod running;
mod steps;

pub use processor::{Idle, Processor, Running};
