//! Tries the words of lines, the items of texts, replies and drawn texts, each crate by itself.
#![tactic(auto)]

#[cfg(test)]
mod comparing;
#[cfg(test)]
mod further;
#[cfg(test)]
mod items;
#[cfg(test)]
mod lines;
#[cfg(test)]
mod replies;
#[cfg(test)]
mod trials;
