//! The values that all crates of the compiler share: addresses, prefixes, ranges, transports,
//! typed numbers, owned texts, places in the sources, and the faults of a policy.
//!
//! Small `Copy` values keep what is always true of them in ghost fields. Definitions never see
//! those: each such value has a plain twin of numbers (`specs/Shown.antt`), and contracts speak
//! of the twin.
#![tactic(auto)]

pub mod address;
pub mod dialect;
pub mod fault;
pub mod ids;
pub mod place;
pub mod row;
pub mod text;
pub mod transport;

pub use address::{Addr, AddrRange, Prefix};
pub use dialect::Dialect;
pub use fault::{Fault, HopAt, LimitWord, Refusal};
pub use ids::{HostId, IfId, NetId, RouterId, ServiceId, TagId, ZoneId};
pub use place::{Kind, Named, Source, Span};
pub use row::Row;
pub use text::{NoMemory, Text};
pub use transport::{PortRange, TBox, Transport};
