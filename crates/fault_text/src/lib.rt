//! The line that tells a fault of a policy, by the names of things in its sources.
#![tactic(auto)]

mod laws;
mod line;

pub use laws::told_lines_are_those;
pub use line::fault_line;
