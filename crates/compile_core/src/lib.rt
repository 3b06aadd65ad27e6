//! From the sources of a policy to the files of its devices, or the line of its first fault. No file
//! at all says the empty policy.
#![tactic(auto)]

mod compiling;

pub use compiling::compile;
pub use device_files::DeviceFile;
pub use policy_compile::{Compiled, Summary, summary_text};
