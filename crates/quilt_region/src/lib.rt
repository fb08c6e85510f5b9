//! Region layers in a tree of records: a grid read from the records of its maximal blocks, and plans of the records that
//! go and come when it changes.
#![tactic(auto)]

mod bounds;
mod comparison;
mod fill;
mod known;
mod laws;
mod leaf_records;
mod lookup;
mod neighbours;
mod paint;
mod plan;
mod quarters;
mod walk;
mod window;

pub use bounds::{first_key, last_key};
pub use laws::{layer_laws, region_laws};
pub use lookup::{colour_at, read_list};
pub use plan::{plan_new, plan_rect, plan_replace};
pub use walk::leaf_counts;
pub use window::read_window;
