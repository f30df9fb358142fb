//! Examples of piles and plans at work: each test is proved safe, and run.
#![tactic(auto)]

#[cfg(test)]
mod piles;
#[cfg(test)]
mod plans;
