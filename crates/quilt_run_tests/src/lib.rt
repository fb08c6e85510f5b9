//! Tries whole runs of the program over worlds in memory: files that are made and opened, scripts, words, stops and failing calls.
#![tactic(auto)]

#[cfg(test)]
mod cases;
#[cfg(test)]
mod files;
#[cfg(test)]
mod runs;
#[cfg(test)]
mod tests;
