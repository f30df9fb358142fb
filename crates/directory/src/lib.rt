//! Editing the pages of the directory: finding a name, putting in and taking out entries, splitting a page, evening out two neighbours and joining them.
#![tactic(auto)]

pub mod edit;
pub mod kind;
pub mod laws;
pub mod place;
pub mod share;
