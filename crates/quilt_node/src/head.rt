/// What the header of a file says: the format, the edition's number, the level of its square, and the tree that holds its records.
#[derive(Clone, Copy, Debug, PartialEq, Eq)]
pub struct Head {
    /// 1 or 2: which records the file may have.
    pub format: u8,
    pub edition: u32,
    /// From 1 to 12.
    pub level: u8,
    /// The tree's root page, or 0 where the height is 0.
    pub root: u32,
    /// From 0 to 3.
    pub height: u8,
    /// The number of records of the tree.
    pub records: u32,
}
