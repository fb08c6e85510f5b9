//! Tests of the questions on lines: drawn layers in blocks of each side against plain computations over all their segments,
//! and worked rows.
#![tactic(auto)]

#[cfg(test)]
mod asking;
#[cfg(test)]
mod clips;
#[cfg(test)]
mod drawing;
#[cfg(test)]
mod nearness;
#[cfg(test)]
mod plain;
#[cfg(test)]
mod ranks;
#[cfg(test)]
mod tests;
