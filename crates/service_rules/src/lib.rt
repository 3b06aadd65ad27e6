//! The permits of services: each source of a rule with each destination and each protocol, without
//! what rules deny.
#![tactic(auto)]

mod action;
mod count;
mod ends;
pub mod expansion;
mod least;
mod managed;
mod permits;
mod scope;
mod sides;

pub use expansion::expand;
