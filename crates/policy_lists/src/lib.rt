//! The access lists at the interfaces of managed routers, from a policy in memory with its zones,
//! views and permits.
#![tactic(auto)]

mod listing;
mod places;
mod tables;
mod viewed;

pub use listing::lists;
