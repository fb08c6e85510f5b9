//! Measures of region layers by their leaves: areas, leaves by size, and perimeters. They take no memory.
#![tactic(auto)]

mod boundary;
mod counts;

pub use boundary::perimeter;
pub use counts::{area, exponent_of, histogram};
