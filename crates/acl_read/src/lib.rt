//! Device files to configurations.
#![tactic(auto)]

mod above;
mod complete;
mod config;
mod fact;
mod file;

pub use file::{BadCode, read};
