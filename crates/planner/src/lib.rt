// The search for the cheapest plan: the words of its calls and its walk, and what is proved of every run.
#![tactic(auto)]

pub mod calls;
pub mod theorems;
pub mod walk;
