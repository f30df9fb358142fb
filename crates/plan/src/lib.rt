//! A plan of puts and settles, read line by line: `SIZE,n`, then any number of `PUT,n,text` and `SETTLE`.
#![tactic(auto)]

pub mod fault;
pub mod line;
pub mod reader;
pub mod step;
