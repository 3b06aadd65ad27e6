//! Translations: the tags in force in each zone and those that each router sees inside, and the
//! faults of tags that are in force where they must not be.
#![tactic(auto)]

mod bound;
mod colour;
mod find;
mod look;
mod naming;
mod refuse;
mod rows;
mod spread;
mod table;

pub use find::domains;
