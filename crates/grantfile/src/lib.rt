// The grant file: checking its bytes, and filling rows from it.
#![tactic(auto)]

mod bodies;
pub mod entries;
pub mod fault;
pub mod file;
pub mod heading;
pub mod reading;
