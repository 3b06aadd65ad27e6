//! Real folders and standard output, as the traits of the outside. They tell nothing of what they
//! hold: this is the trusted edge of the program. Each failure of the system is counted, and nothing
//! else is.
#![tactic(auto)]

mod file;
mod folder;
mod out;
mod path;
mod walk;

pub use folder::HostFolder;
pub use out::HostOut;
