//! Draw sources: endless lists of words from 0 to 65,535, taken from the front, and what is drawn from them.
#![tactic(auto)]

pub mod generator;
pub mod select;
pub mod source;
pub mod tape;
