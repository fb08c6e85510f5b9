//! Tries the journal over a disk in memory, what each stop of a publish leaves and what foreign files do, and the worlds in memory themselves.
#![tactic(auto)]

#[cfg(test)]
mod calls;
#[cfg(test)]
mod calm_worlds;
#[cfg(test)]
mod desks;
#[cfg(test)]
mod files;
#[cfg(test)]
mod images;
#[cfg(test)]
mod steps;
#[cfg(test)]
mod tests;
