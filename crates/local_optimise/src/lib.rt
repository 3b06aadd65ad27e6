//! Access lists without needless lines: each header is decided as before, and no line can be left out.
#![tactic(auto)]

mod chains;
mod ends;
mod first_pass;
mod keys;
mod list;
mod pairs;
mod remaining;
mod second_pass;
mod shelf;
mod stem_set;

pub use list::optimise;
