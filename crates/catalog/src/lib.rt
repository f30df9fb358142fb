//! What a whole volume holds: its catalog, the questions put to its sectors, and their laws.
#![tactic(auto)]

pub mod fault;
pub mod laws;
