//! Access lists with object groups: lines of equal form become one line with groups of prefixes at its ends. Each header is
//! decided as before, and no two neighbours can be joined any more.
#![tactic(auto)]

mod compare;
mod list;
mod members;
mod runs;

pub use list::group;
