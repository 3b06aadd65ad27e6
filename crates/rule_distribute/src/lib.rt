//! What is placed at each interface of a managed router: for each pair of networks on path there,
//! its permits and those of the way back, and where an outer pair's line reaches into it, that all else
//! between its networks is denied.
#![tactic(auto)]

mod blocks;
mod closed;
mod concerned;
mod hidden;
mod joined;
mod managed;
mod naming;
mod pairs;
mod paths;
mod placement;
mod places;
mod rows;
mod seen;
mod sight;
mod unjoined;
mod zones;

pub use blocks::{Joined, join};
pub use places::distribute;
pub use zones::zone_pairs;
