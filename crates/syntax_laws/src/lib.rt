//! What the parser's declarations say. The trees in memory are seen as what their declarations say;
//! what is in the grammar is well formed; and its words, names among them, are parts of the text.
//! The functions here do nothing: each has a law as its contract.
#![tactic(auto)]

pub mod files;
pub mod formed;
pub mod names;
pub mod trees;
pub mod words;
