//! Tries whole runs of the program over drawn texts: what they are answered is what lists of points and segments and plain grids say.
#![tactic(auto)]

#[cfg(test)]
mod bodies;
#[cfg(test)]
mod grids;
#[cfg(test)]
mod layers;
#[cfg(test)]
mod survey;
#[cfg(test)]
mod tests;
