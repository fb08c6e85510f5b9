use quilt_types::{Block, Colour};

/// What is known of a region layer around a window: the block whose leaves are read, a block around it that has one
/// colour elsewhere, and a colour that stands for all others.
#[derive(Clone, Copy, Debug, PartialEq, Eq)]
pub struct Known {
    pub read: Block,
    pub top: Block,
    pub around: Colour,
    pub elsewhere: Colour,
}
