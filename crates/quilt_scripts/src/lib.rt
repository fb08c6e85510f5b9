//! Scripts of commands with their replies, and runs of the program over a file in memory: what tests of whole runs share.
#![tactic(auto)]

mod files;
mod run;
mod script;
mod turns;

pub use files::{choice, edition_of, file_after, file_of, put_within, stopped};
pub use run::Run;
pub use script::plays;
pub use turns::{Turns, line_of};
