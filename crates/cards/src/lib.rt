//! Images of cards, built in memory for tests and trials.
#![tactic(auto)]

pub mod card;
pub mod example;
pub mod fault;
mod files;
mod tree;
