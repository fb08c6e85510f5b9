//! Windows and shifts: maps that take their colours from a part of another map, and are 0 elsewhere.
#![tactic(auto)]

mod copy;
mod crop;
mod offset;
mod span;

pub use crop::window;
pub use offset::shift;
