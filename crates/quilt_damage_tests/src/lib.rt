//! Tries the audit over drawn maps that are written as trees of height 1 to 3 and damaged, beside a plain reading of their pages.
#![tactic(auto)]

#[cfg(test)]
mod tests;
