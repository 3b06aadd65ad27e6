//! The access list at an interface, before it is optimised: line by line from the permits that are
//! placed there, as far as a limit of lines allows.
#![tactic(auto)]

mod blocks;
mod covers;
mod lines;
mod list;

pub use list::build;
