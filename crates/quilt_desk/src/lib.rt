//! Worlds in memory: one that tells everything and fails where it is told to, and one that never fails.
#![tactic(auto)]

mod calls;
mod calm;
mod choice;
mod copies;
mod desk;
mod events;
mod input;
mod page_state;
mod path;
mod source;

pub use calm::Calm;
pub use choice::choices;
pub use desk::Desk;
