//! What the fields of a volume's sectors hold: sector numbers and addresses, names and their order, lengths.
#![tactic(auto)]

pub mod laws;
pub mod length;
pub mod name;
pub mod sector;
