//! The top call of the program: what the words ask for, over a policy folder, a target folder and
//! an output, each seen through a trait.
//!
//! `run` decides everything and makes each text before it writes anything; from its first `put`
//! or `write` on it takes no memory.
#![tactic(auto)]

mod answer;
mod deliver;
mod load;
mod texts;
mod top;

pub use top::run;

#[cfg(test)]
mod cases;
#[cfg(test)]
mod denied;
#[cfg(test)]
mod faults;
#[cfg(test)]
mod nested;
#[cfg(test)]
mod rows;
#[cfg(test)]
mod shared;
#[cfg(test)]
mod tests;
#[cfg(test)]
mod translated;
#[cfg(test)]
mod walks;
