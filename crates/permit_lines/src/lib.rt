//! The lines of permits where a view is: the prefixes that make up the ends of each permit, for the
//! permits of a pair of networks and for the replies to those of the way back.
#![tactic(auto)]

mod cover;
mod pairs;
mod sight;

pub use cover::PermitCover;
pub use pairs::pair_covers;
pub use sight::view_at;
