//! What a managed device is set up with, access lists and static routes, and what it does by them: whether a list passes a header, and where a table sends
//! an address.
#![tactic(auto)]

mod filter;
mod laws;
mod setup;
mod table;

pub use filter::first_match;
pub use laws::look_ups_agree;
pub use setup::{Config, Header, Hop, Line, List, Port, Route};
pub use table::lookup;
