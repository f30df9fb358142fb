//! The questions put to example cards, sound ones and broken ones: each test is proved safe, and run.
#![tactic(auto)]

#[cfg(test)]
mod broken;
#[cfg(test)]
mod images;
#[cfg(test)]
mod sound;
