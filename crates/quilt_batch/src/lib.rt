//! Batches of edits of a tree: records that go and records that come, merged in the order of their keys.
#![tactic(auto)]

mod merge;

pub use merge::{Part, first_edits, merged};
