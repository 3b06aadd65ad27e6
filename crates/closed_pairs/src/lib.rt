//! Whether a pair of networks must be closed at an interface: whether a line of a pair round it
//! reaches into it, past its own lines; which of the pairs at an interface are closed; and the pairs
//! that lie inside a pair. A pair with a hidden network lies in no pair, and no pair lies in it.
#![tactic(auto)]

mod closing;
mod inside;
mod keys;
mod laws;
mod pairs;
mod parts;
mod reach;

pub use closing::closed_among;
pub use inside::pairs_inside;
pub use laws::closed_as_defined;
pub use pairs::PairPermits;
