//! The next hops of static routers, gathered from the marks of walks.
#![tactic(auto)]

mod gather;
mod lookup;
mod search;
mod tables;
mod ways;

pub use gather::{Found, Place, Way};
pub use search::next_hops;
