use quilt_record::Key;

/// What became of a subtree when a record was put in: its key was there, it is in, or the page was split at a key.
#[derive(Clone, Copy, Debug, PartialEq, Eq)]
pub enum Inserted {
    There,
    Done,
    Split { key: Key, right: u32 },
}

/// What became of a subtree when a record was put in, and how many of those behind it came with it.
#[derive(Clone, Copy, Debug, PartialEq, Eq)]
pub struct Placed {
    pub outcome: Inserted,
    pub more: usize,
}

/// What became of a subtree when the record of a key was taken out: there was none, it is out, the page has one too
/// few, the leaf has none left (and was not written), or the page has one child left (and was not written).
#[derive(Clone, Copy, Debug, PartialEq, Eq)]
pub enum Removed {
    Missing,
    Done,
    Underfull,
    Emptied,
    Only { child: u32 },
}

/// How two neighbouring pages were rebalanced: the left one has all, or this key separates them now.
#[derive(Clone, Copy, Debug, PartialEq, Eq)]
pub enum Rebalanced {
    Joined,
    Redistributed { key: Key },
}
