//! Tries the common types, records, their edits and a store in memory, each crate by itself.
#![tactic(auto)]

#[cfg(test)]
mod edits;
#[cfg(test)]
mod records;
#[cfg(test)]
mod stores;
#[cfg(test)]
mod types;
