//! Groups that name groups, and protocol groups that name protocol groups: the first that reaches
//! itself, and whether they nest too deep.
#![tactic(auto)]

pub mod circle;
pub mod depth;
mod graph;
mod group_graph;
mod nodes;
mod search;

pub use circle::first_on_circle;
pub use depth::nest_too_deep;
