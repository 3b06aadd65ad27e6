//! Zones: the networks that no managed router parts. And the tables of what lies between and in
//! them: the marks of walks, and the tags in force.
#![tactic(auto)]

mod forest;
pub mod graph;
mod groups;
mod labels;
mod laws;
pub mod marks;
pub mod tags;

pub use graph::{ZoneGraph, zones};
pub use laws::zones_are_counted;
pub use marks::{Crossing, Link, MarkTable, PairMarks};
pub use tags::TagTable;
