//! Tries edits of line layers in a tree over a store in memory beside a plain computation over sets of blocks.
#![tactic(auto)]

#[cfg(test)]
mod drawing;
#[cfg(test)]
mod plain;
#[cfg(test)]
mod tests;
#[cfg(test)]
mod trial;
