//! Tests of public calls of the crates below: each that allocates is run once with ample memory. They stand here, since a
//! crate with tests is proved once more for them. A test is a table of rows that one helper walks.
#![tactic(auto)]

#[cfg(test)]
mod boxes;
#[cfg(test)]
mod devices;
#[cfg(test)]
mod fault_lines;
#[cfg(test)]
mod folders;
#[cfg(test)]
mod groups;
#[cfg(test)]
mod lists;
#[cfg(test)]
mod optimised;
#[cfg(test)]
mod texts;
#[cfg(test)]
mod trees;
