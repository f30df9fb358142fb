//! A volume's questions put to a disk: what it holds, or the first no.
#![tactic(auto)]

mod asks;
mod file;
mod findings;
pub mod map;
mod page;
mod read;
pub mod row;
pub mod survey;
