//! From the texts of a policy to the declarations of its files.
#![tactic(auto)]

mod file;
mod files;
mod laws;

pub use file::read_file;
pub use files::read_files;
pub use laws::the_earliest_kind_counts;
