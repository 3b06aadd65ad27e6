//! From a policy in memory to the files of its managed routers and the summary, or its first fault.
#![tactic(auto)]

pub mod compiled;
mod summary;

pub use compiled::{Compiled, Summary, compile};
pub use summary::summary_text;
