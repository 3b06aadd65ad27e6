//! The names that the declarations of a policy give and use: their list in the order of the
//! files, tables by which a name is looked up, and the first name that is declared twice or used
//! without being declared.
#![tactic(auto)]

mod collect;
mod keys;
pub mod mention;
pub mod names;
mod sets;
pub mod table;
mod tables;
pub mod unknown;
pub mod uses;

pub use mention::{Mention, NameKind};
pub use names::names_given;
pub use table::{NameTable, name_table};
pub use unknown::first_unknown;
pub use uses::names_used;
