//! The edits of a tree: records that go and records that come, each in the order of their keys.
#![tactic(auto)]

mod edits;

pub use edits::edits_of;
