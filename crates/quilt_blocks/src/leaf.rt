use quilt_types::{Block, Colour};

/// A block of one colour.
#[derive(Clone, Copy, Debug, PartialEq, Eq)]
pub struct Leaf {
    pub block: Block,
    pub colour: Colour,
}
