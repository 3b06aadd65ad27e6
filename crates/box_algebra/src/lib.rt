//! Sets of headers as boxes: inclusion, meeting and difference, and the prefixes of a range.
#![tactic(auto)]

mod boxes;
mod cover;
mod pieces;

pub use boxes::{Box4, box_is_proper, covers, meets};
pub use cover::cover_range;
pub use pieces::{minus, parts};
