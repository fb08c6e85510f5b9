//! Tries the book over a disk in memory: what each stop and each failing call leaves, and what foreign files do.
#![tactic(auto)]

#[cfg(test)]
mod edition;
#[cfg(test)]
mod files;
#[cfg(test)]
mod steps;
#[cfg(test)]
mod tests;
#[cfg(test)]
mod wanted;
