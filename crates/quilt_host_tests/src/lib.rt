//! Tries whole runs of the program over a system in memory: drawn texts in short pieces, with signals, calls that fail and a full disk.
#![tactic(auto)]

#[cfg(test)]
mod runs;
#[cfg(test)]
mod tests;
