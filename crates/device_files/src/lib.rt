//! From the access lists of a policy's interfaces to the files of its managed routers.
#![tactic(auto)]

pub mod files;
mod router;

pub use files::{DeviceFile, DeviceFiles, device_files};
