//! A store of numbered pages, some of them free, and one that keeps its pages in memory.
#![tactic(auto)]

mod memory;
mod store;

pub use memory::MemStore;
pub use store::{PageStore, StoreErr};
