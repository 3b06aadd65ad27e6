//! From the texts of a policy's files to the policy in memory, or the first fault of the texts and
//! of their declarations.
#![tactic(auto)]

pub mod laws;
mod read;

pub use read::read_policy;
