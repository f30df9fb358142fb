//! A plan run on any disk up to a power stop, and what that left judged by the plan.
#![tactic(auto)]

pub mod ending;
pub mod judge;
pub mod run;
pub mod stop;
