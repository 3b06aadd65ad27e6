//! What must not stand in a declaration: the first declaration of a policy in which something
//! stands that must not, with the least number of that.
#![tactic(auto)]

mod aggregate;
mod area;
mod block;
mod clash;
mod group;
mod iface;
mod keys;
mod network;
mod policy;
mod protocol;
mod restriction;
mod router;
mod service;
mod sets;
pub mod shapes;
mod shared;
mod word;

pub use shapes::first_shape;
