//! Editions: what a map file stands for, how a file of the empty edition is made, and the book of one edition and the work on the next.
#![tactic(auto)]

mod book;
mod creation;
mod free;
mod laws;
mod pages;
mod publish;
mod revert;
mod start;

pub use book::Book;
pub use creation::create;
pub use laws::{one_edition_law, same_edition_law};
pub use start::Started;
