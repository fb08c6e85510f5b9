use crate::Key;

/// A record of the tree.
#[derive(Clone, Copy, Debug, PartialEq, Eq)]
pub struct Record {
    pub key: Key,
    pub value: [u8; 16],
}
