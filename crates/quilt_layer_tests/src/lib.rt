//! Tries layers in a tree over a store in memory: regions, points and lines.
#![tactic(auto)]

#[cfg(test)]
mod drawing;
#[cfg(test)]
mod layer;
#[cfg(test)]
mod lines;
#[cfg(test)]
mod mixed_points;
#[cfg(test)]
mod plain_points;
#[cfg(test)]
mod plans;
#[cfg(test)]
mod point_windows;
#[cfg(test)]
mod points;
#[cfg(test)]
mod regions;
#[cfg(test)]
mod trial;
#[cfg(test)]
mod windows;
