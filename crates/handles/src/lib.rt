//! The open handles of a store, each with live bytes of its own: what a restart ends.
#![tactic(auto)]

mod held;

pub use held::{HANDLE_LIMIT, Handles, ISSUE_LIMIT};
