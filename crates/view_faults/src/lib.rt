//! The views of a policy, or what is wrong with them: too many that differ, or two networks with one
//! prefix in one of them.
#![tactic(auto)]

mod count;
mod find;
mod naming;
mod row_set;

pub use find::views;
