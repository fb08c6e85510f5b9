//! Tries the world of a map file over a system in memory: short pieces, signals, calls that fail, a full disk.
#![tactic(auto)]

#[cfg(test)]
mod tests;
