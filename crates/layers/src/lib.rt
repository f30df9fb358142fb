//! Layers that stand in a pile over any disk, each of them a disk again.
#![tactic(auto)]

pub mod fuse;
pub mod hold;
mod kept;
mod table;
