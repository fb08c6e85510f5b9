//! Tries the pages of the tree byte by byte, and the tree over a store in memory beside an ordered map.
#![tactic(auto)]

#[cfg(test)]
mod bytes;
#[cfg(test)]
mod damaged;
#[cfg(test)]
mod full_leaves;
#[cfg(test)]
mod grown;
#[cfg(test)]
mod pages;
#[cfg(test)]
mod spoilt;
#[cfg(test)]
mod tests;
#[cfg(test)]
mod trial;
#[cfg(test)]
mod worked;
