//! The policy that declarations say, built in an arena: names become numbers, words become values,
//! and sets become unions.
#![tactic(auto)]

mod aggregates;
mod areas;
mod boxes;
mod entry;
mod expand;
mod groups;
mod hosts;
mod ifaces;
mod nets;
mod places;
mod policy;
mod protocols;
mod restrictions;
mod routers;
mod scope;
mod services;
mod sets;
mod shared_keys;
mod sharing;
mod sorting;
mod tags;
mod texts;
mod values;

pub use entry::build;
