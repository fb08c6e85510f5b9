//! Map algebra on lists of leaves: two maps laid over each other, and a map with other colours.
#![tactic(auto)]

mod colours;
mod combination;
mod operation;

pub use colours::recolour;
pub use combination::overlay;
pub use operation::Op;
