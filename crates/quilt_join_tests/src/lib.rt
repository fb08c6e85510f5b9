//! Tests of the crossings of two line layers: worked rows, the most pairs, and drawn layers against all pairs.
#![tactic(auto)]

#[cfg(test)]
mod drawing;
#[cfg(test)]
mod plain;
#[cfg(test)]
mod tests;
