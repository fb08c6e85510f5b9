//! Tries that rasters are built by parts that run at the same time, alone and in a session, and what a session tells of itself.
#![tactic(auto)]

#[cfg(test)]
mod meeting;
#[cfg(test)]
mod opening;
#[cfg(test)]
mod quadrants;
#[cfg(test)]
mod tests;
