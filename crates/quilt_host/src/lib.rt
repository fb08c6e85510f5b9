//! What the system does for the program, call by call, and the world of a map file and the standard streams over any such system.
#![tactic(auto)]

mod act;
mod failure;
mod host_world;
mod machine;
mod opened;
mod pages;
mod streams;
mod system;

pub use act::Act;
pub use failure::Failure;
pub use host_world::HostWorld;
pub use machine::Machine;
pub use system::{Access, Identity, Stream, System};
