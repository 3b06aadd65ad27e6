//! Declarations without a fault say a sound policy. The functions here do nothing: each has a law as its contract.
#![tactic(auto)]

mod kept;
mod named;
mod sound;
mod well_formed;

pub use kept::rules_count_alike;
pub use named::{
    policies_said_are_limited, policies_said_are_named, policies_said_are_numbered,
    sets_said_are_sound,
};
pub use sound::policies_said_are_sound;
pub use well_formed::policies_said_are_well_formed;
