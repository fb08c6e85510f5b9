//! The reply to each command, the work that it leaves, and the editions that are published.
#![tactic(auto)]

mod amendment;
mod block_count;
mod change;
mod copy;
mod creation;
mod derivation;
mod dispatch;
mod edit;
mod editions;
mod entries;
mod line_queries;
mod lines;
mod measure;
mod new_layers;
mod overlay;
mod point_commands;
mod points;
mod polygon;
mod publish;
mod queries;
mod raster;
mod rect;
mod refusals;
mod regions;
mod scatter;
mod segments;
mod session;
mod settled;
mod uniform;
mod views;

pub use quilt_replies::Reply;
pub use session::Session;
pub use settled::{settled_law, settled_replies};
