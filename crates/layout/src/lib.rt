//! The sectors of a volume, byte by byte: stored numbers, first sectors of files, extension tables and directory pages.
#![tactic(auto)]

pub mod codec;
pub mod entries;
pub mod entry;
pub mod header;
pub mod laws;
pub mod page;
pub mod table;
pub mod word;
