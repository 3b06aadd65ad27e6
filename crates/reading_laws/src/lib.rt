//! That the texts of a policy are read as the grammars of tokens and of declarations say, and refused exactly where they don't.
//! `specs/Said` has what texts say, and `specs/Told` which fault of reading is told of them.
//! The functions here do nothing: each has a law as its contract.
#![tactic(auto)]

mod texts;

pub use texts::{faults_of_texts_are_told, texts_are_read};
