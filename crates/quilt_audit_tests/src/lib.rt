//! Tries the audit over trees in memory: catalogs, pages, and layers of each kind, worked and drawn.
#![tactic(auto)]

#[cfg(test)]
mod tests;
