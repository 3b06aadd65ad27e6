//! The network of a policy: its lists, shared in an arena.
#![tactic(auto)]

pub mod items;
mod rows;
pub mod sets;
pub mod topo;

pub use items::{
    Aggregate, Area, Device, Group, Host, IfRows, Iface, Network, Parts, Restriction, Router, Rule,
    Service, Tag,
};
pub use sets::{Further, Inter, Term, Union};
pub use topo::Topo;
