//! Locational codes of pixels and blocks: the pixels of a block are the codes of one interval.
#![tactic(auto)]

mod block;
mod code;

pub use block::{block_at, covers, parent, quarters, whole_square};
pub use code::end_of;
pub use quilt_types::{code_of, pixel_of};
