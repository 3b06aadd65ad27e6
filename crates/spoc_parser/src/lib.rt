//! From tokens to the declarations of a policy file.
#![tactic(auto)]

mod cursor;
mod decls;
mod fail;
mod forms;
mod lists;
mod parser;
mod parts;
mod protos;
mod spread;
mod terms;
mod within;
mod words;

pub use fail::ParseFail;
pub use parser::parse;
pub use token_checks::{left_out, too_deep};
pub use within::are_in_reach;
