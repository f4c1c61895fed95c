// What the programs print, from the bytes of a file to the bytes of the answer.
#![tactic(auto)]

pub mod flow_order;
mod lines;
