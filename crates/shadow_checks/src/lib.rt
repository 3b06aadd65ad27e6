//! Addresses of hosts and interfaces that lie at another network where translations are in force.
#![tactic(auto)]

mod find;
mod here;
mod least;
mod naming;
mod refuse;
mod walk;

pub use refuse::refuse_shadowed;
