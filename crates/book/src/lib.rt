// The calls on book and search, and lists of them under the law.
#![tactic(auto)]

mod book;
mod search;
mod state;
