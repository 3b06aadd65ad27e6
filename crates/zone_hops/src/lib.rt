//! First hops inside a zone: where packets go on from one network to another without passing a
//! managed router.
#![tactic(auto)]

mod hops;
mod search;

pub use hops::first_hops;
