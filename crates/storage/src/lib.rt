//! A store: a table of open handles over any medium.
#![tactic(auto)]

mod calls;

pub use calls::Storage;
