//! Line layers in a tree of records: the segments of a layer, the blocks that they meet, and plans of the records that go and
//! come when a segment does (PMR quadtrees, Nelson and Samet 1986).
#![tactic(auto)]

mod addition;
mod hint;
mod ids;
mod laws;
mod marks;
mod merge;
mod removal;
mod removal_plan;
mod runs;
mod search;
mod segments;
mod settlement;
mod start;
mod tally;
mod view;

pub use addition::plan_add;
pub use laws::lines_laws;
pub use removal_plan::plan_remove;
pub use segments::{scan, segment};
pub use start::first_record;
pub use tally::block_counts;
pub use view::LineView;
