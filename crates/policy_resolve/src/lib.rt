//! The policy in memory that the declarations of files say, or the first fault that they have.
#![tactic(auto)]

mod decls;
mod entry;
mod faults;
mod lengths;
mod limits;

pub use entry::resolve;
