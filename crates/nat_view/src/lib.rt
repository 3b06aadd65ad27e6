//! What addresses mean where translations are in force: the prefix of each network, and the network
//! of each address.
#![tactic(auto)]

mod build;
mod fail;
mod firsts;
mod place;
mod table;
mod view;
mod views;

pub use build::view_table;
pub use fail::{ViewAt, ViewFail};
pub use view::View;
pub use views::Views;
