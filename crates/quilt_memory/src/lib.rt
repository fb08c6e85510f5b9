//! A system in memory that tells everything, with calls that fail, signals, short reads and writes, and a full disk.
#![tactic(auto)]

mod memory;
mod schedule;

pub use memory::Memory;
