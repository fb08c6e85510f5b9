//! How many leaves a list would have, before it is made.
#![tactic(auto)]

mod count;
mod pixels;
mod tally;

pub use count::has_few_leaves;
pub use pixels::Pixels;
pub use tally::{Tally, is_few, joined, room_beside};
