//! Readers of the numbers, addresses, prefixes, ranges and ports that are written in a policy.
//! Each answers None exactly where a text isn't of its form. What is out of range, as a port
//! above 65535 or a prefix with a host bit, is read all the same.
#![tactic(auto)]

pub mod text;
pub mod words;

pub use text::{Ends, IcmpKind, PortPair, address, number, prefix};
pub use words::{icmp, port_pair, range, spread};
