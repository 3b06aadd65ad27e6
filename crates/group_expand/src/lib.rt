//! Areas and sets of objects: what the names of a policy stand for.
#![tactic(auto)]

pub mod area;
pub mod area_table;
mod border;
pub mod expand;
mod expr;
pub mod group_sets;
mod hosts;
mod members;
mod narrow;
pub mod object;
mod object_set;
mod scope;
mod spread;
mod waits;
mod zone_nets;
mod zone_set;

pub use area::Areas;
pub use area_table::areas;
pub use expand::objects;
pub use group_sets::GroupSets;
pub use object::Object;
