//! What a policy in memory means, step by step: its zones, its areas, its tags, its views and its
//! expanded permits, or the first fault on the way there.
#![tactic(auto)]

pub mod find;
mod steps;

pub use find::{Findings, found};
