//! The bytes of a file or of an open handle, header included: at most 1,016.
#![tactic(auto)]

mod bytes;
mod patch;

pub use bytes::{Content, LIMIT, ends_within};
pub use patch::Patch;
