//! What a store promises: the plain table that its calls follow, the ledger kept beside it, and what every start finds.
#![tactic(auto)]

pub mod examples;
pub mod fault;
pub mod laws;
