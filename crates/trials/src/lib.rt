// Trials of the subject by examples, and a weight kind of a crate's own.
#![tactic(auto)]

#[cfg(test)]
mod files;
pub mod steps;
#[cfg(test)]
mod tables;
#[cfg(test)]
mod walks;
#[cfg(test)]
mod weights;
