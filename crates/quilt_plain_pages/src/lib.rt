//! A plain reading of the pages of a tree and of the records of a map, as docs/FORMAT.md says them: what tests compare an audit with.
#![tactic(auto)]

mod blocks;
mod bytes;
mod lines;
mod maps;
mod nodes;
mod points;
mod regions;
mod stores;
mod walk;

pub use blocks::{Span, blank, paint, size};
pub use bytes::{Page, byte, offset, record, short, word};
pub use lines::{Line, LineLayer};
pub use maps::{entry, is_map};
pub use points::PointLayer;
pub use regions::RegionLayer;
pub use stores::put_page;
pub use walk::{Flaw, Walk, walk_tree};
