use quilt_types::Block;

/// A block of a point layer, and how many points have come in it.
#[derive(Clone, Copy, Debug, PartialEq, Eq)]
pub struct Tally {
    pub block: Block,
    pub count: u8,
}
