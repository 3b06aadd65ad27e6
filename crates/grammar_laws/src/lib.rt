//! Laws of the grammar of policy files: what the parser's readers read is what the grammar spells,
//! both ways; a run of declarations is the longest; and the limit on nested brackets loses nothing.
//! The functions here do nothing: each has a law as its contract.
#![tactic(auto)]

pub mod depth_law;
pub mod laws;
