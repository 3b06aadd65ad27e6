//! Networks by their prefixes: the longest match of an address, the next enclosing network, and the
//! networks inside a prefix.
#![tactic(auto)]

mod fail;
mod nodes;
mod order;
mod tree;

pub use fail::TreeFail;
pub use tree::Tree;
