//! The trees of policy files, as they are written: declarations with their names, numbers and
//! other words unresolved. All slices but the words' texts lie in an arena.
//!
//! A tree says what stands in a file and not what it means. `specs/` has a plain twin of each
//! type, by which contracts speak of trees.
#![tactic(auto)]

pub mod decl;
mod laws;
pub mod set;
pub mod word;

pub use decl::{
    AnyPart, AreaPart, Decl, File, HostPart, Idle, IfPart, NatPart, NetPart, Prt, RoutPart,
    RuleTree, Simple, VirtPart,
};
pub use laws::sets_are_seen_by_their_parts;
pub use set::{FurtherTree, InterTree, SetTree, TermTree};
pub use word::{PortName, Word};
