// The words of the subject: refusals, rights, rows, shapes and weights.
#![tactic(auto)]

mod amounts;
mod decimal;
pub mod peak;
pub mod refusal;
pub mod right;
pub mod row;
pub mod shape;
pub mod sum;
pub mod weight;
