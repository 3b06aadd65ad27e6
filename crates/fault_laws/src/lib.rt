//! Which fault of a policy comes first, as functions of its meaning: those of `specs/Cases` find what `IsFirstWithin` tells of a row of faults, and nothing
//! just where `HasNone` says that the row has none. Rows are numbered in their order, from 0 for a split area on; rows that stand side by side are joined.
//! The functions here do nothing: each has a law as its contract.
#![tactic(auto)]

mod joined;
mod rows;

pub use joined::{
    faults_are_joined, first_fault_of_services, first_fault_of_tags, first_fault_of_walks,
};
pub use rows::{
    first_conflict, first_hidden_end, first_inside, first_managed_end, first_same_prefix,
    first_split, first_translated_twice, first_without_path, lines_past_the_limit,
    permits_past_the_limit, routes_past_the_limit, views_past_the_limit,
};
