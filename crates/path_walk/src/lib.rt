//! Walks from zone to zone, by plain search over managed routers: the first allowed walks in order,
//! the crossings and links of all of them, and whether some walk begins as a packet has gone.
#![tactic(auto)]

pub mod begun;
pub mod listing;
mod lookup;
pub mod marks;
mod onward;
mod search;
mod shut;
mod step;
pub mod tables;

pub use begun::{begins, extends};
pub use listing::{WalkList, walks};
pub use marks::plain_marks;
pub use tables::plain_tables;
