//! The medium in memory: a table of partitions and one of files.
#![tactic(auto)]

mod medium;
mod seeks;

pub use seeks::Memory;
