//! The text of a device's file, IOS or ASA: routes, access lists, and the bindings of the lists to the interfaces.
#![tactic(auto)]

mod asa;
mod device;
mod entry;
mod groups;
mod ios;
mod word;

pub use device::print;
