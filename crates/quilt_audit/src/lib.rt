//! The audit of a map's tree at opening: its pages, its records, and the layers that they spell.
#![tactic(auto)]

mod checker;
mod codes;
mod node;
mod points;
mod progress;
mod regions;
mod run;
mod siblings;
mod survey;
mod tally;
mod walk;

pub use survey::{Survey, audit};
