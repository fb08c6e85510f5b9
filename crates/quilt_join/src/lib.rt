//! Which segments of two line layers share a point: all pairs, found block by block in threads.
#![tactic(auto)]

mod buckets;
mod join;
mod overlap;
mod pairs;
mod rows;
mod shift;
mod span;

pub use join::crossings;
pub use overlap::shares;
pub use pairs::PairList;
