//! That what sources compile to tells their first fault over the whole table, from a byte at which no token begins to lists with too many lines.
//! `specs/Sources` has the outcome of sources, and `specs/Table` the table.
//! The functions here do nothing: each has a law as its contract.
#![tactic(auto)]

mod firsts;
mod outcomes;

pub use firsts::{
    first_of_texts_and_declarations, one_first_of_sources, policies_in_sources_are_sound,
};
pub use outcomes::{
    outcome_is_of_its_sources, outcome_of_sources_is_told, preparation_of_sources_is_told,
};
