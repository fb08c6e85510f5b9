/// The most records of a leaf.
pub const MOST_RECORDS: usize = 144;

/// The fewest records of a leaf that is not the root.
pub const LEAST_RECORDS: usize = 72;

/// The most children of an inner page.
pub const MOST_CHILDREN: usize = 254;

/// The fewest children of an inner page that is not the root.
pub const LEAST_CHILDREN: usize = 127;
