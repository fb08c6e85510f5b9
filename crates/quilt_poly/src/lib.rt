//! Regions from polygons: the pixels inside of rings of corners, as a list of leaves.
#![tactic(auto)]

mod bits;
mod columns;
mod edges;
mod fill;
mod outline;

pub use fill::{region_of, region_within};
