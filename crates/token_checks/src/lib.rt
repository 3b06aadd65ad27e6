//! What is looked at in tokens before they are read as declarations: words of the language that this
//! compiler leaves out, and how deep brackets nest.
#![tactic(auto)]

mod nesting;
mod reach;
mod signs;
mod words;

pub use nesting::too_deep;
pub use reach::{tokens_are_no_more_than_bytes, tokens_end_within_the_text};
pub use words::left_out;
