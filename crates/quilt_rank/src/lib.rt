//! The segments of a layer of lines in the order of their distance from a pixel.
#![tactic(auto)]

mod firsts;
mod ranks;
mod search;

pub use ranks::RankList;
pub use search::ranked;
