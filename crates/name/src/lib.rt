//! Names of partitions and files, of at most 16 bytes, and a list of names in ascending order.
#![tactic(auto)]

mod letters;
mod listing;
mod names;

pub use letters::{NAME_LIMIT, is_letter, is_partition};
pub use listing::{Listing, NAMES_LIMIT, SCAN_AREA};
pub use names::Name;
