//! What denials leave of permits.
#![tactic(auto)]

mod denials;
mod pieces;

pub use pieces::permits_left;
