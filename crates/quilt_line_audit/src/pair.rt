use quilt_types::Block;

/// A block of a line layer with the id of a segment that meets it, or with none where no segment does.
#[derive(Clone, Copy, Debug, PartialEq, Eq)]
pub struct Pair {
    pub block: Block,
    pub id: Option<u32>,
}
