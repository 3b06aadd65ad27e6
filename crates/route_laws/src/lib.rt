//! Laws of the next hops of static routers: marks of walks give them, and they determine the
//! first fault of routes. The functions here do nothing: each has a law as its contract.
#![tactic(auto)]

mod hops;
mod rows;

pub use hops::marks_give_hops;
pub use rows::{first_ambiguous_hop, first_fault_of_routes, first_hop_without_address};
