//! What a permit means: which packets it holds, and which packets are replies to those.
#![tactic(auto)]

pub mod block;
pub mod packet;
pub mod permit;
#[cfg(test)]
mod tests;

pub use block::{PairBlock, Placement};
pub use packet::{Packet, Point, is_answer_kind, swap};
pub use permit::{End, Permit, answers, holds, mirrors, wanted};
