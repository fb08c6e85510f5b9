//! Exact fractions, and which part of a segment lies in a window.
#![tactic(auto)]

mod frac;
mod segment;
mod span;

pub use frac::{Frac, cmp};
pub use segment::{clip, crosses, meets};
