//! Rasters in parallel: the list of leaves of a raster, made of the lists of its quadrants, each of which may have a thread.
#![tactic(auto)]

mod counted;
mod gate;
mod join;
mod part;
mod square;

pub use gate::{Gate, NoGate};
pub use join::{few_leaves_of_par, leaves_of_par};
