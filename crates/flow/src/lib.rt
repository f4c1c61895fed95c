// Where flow goes between the devices of a table: followers, reach, rings and the device order.
#![tactic(auto)]

pub mod followers;
pub mod order;
pub mod reach;
mod sets;
mod table;
mod touched;
