//! One line of a device's file, read by itself: what it says, whatever stands above it.
#![tactic(auto)]

mod command;
mod ends;
mod entry;
mod line;
mod numbers;
mod words;

pub use command::{Command, End, Entry};
pub use line::read_line;
