//! Which segments of a layer of lines meet a window or the coloured pixels of a region, and which parts of them lie in a
//! window.
#![tactic(auto)]

mod clips;
mod descent;
mod selection;
mod stack;

pub use clips::ClipList;
pub use selection::{clipped, cross, over};
