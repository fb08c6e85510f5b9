//! Point layers in a tree of records: points are found in the records of their blocks, and plans of the records that go and
//! come when points do (PR quadtrees with buckets, Samet 1990).
#![tactic(auto)]

mod climb;
mod coded;
mod counts;
mod delta;
mod laws;
mod layer;
mod leaf;
mod lookup;
mod plan;
mod scatter;
mod search;
mod start;
mod window;

pub use counts::block_counts;
pub use laws::points_laws;
pub use lookup::find;
pub use plan::{plan_del, plan_put};
pub use scatter::plan_scatter;
pub use start::first_record;
pub use window::within;
