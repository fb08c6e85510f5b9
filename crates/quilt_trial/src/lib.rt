//! The text of a trial, line by line: commands that a generator of 64 bits draws.
#![tactic(auto)]

mod draws;
mod generator;
mod trial;

pub use trial::{Trial, trial_text};
