//! Region layers as lists of maximal blocks in the order of their codes (linear region quadtrees).
#![tactic(auto)]

mod cursor;
mod leaf;
mod list;
mod maker;

pub use cursor::Cursor;
pub use leaf::Leaf;
pub use list::LeafList;
pub use maker::Maker;
