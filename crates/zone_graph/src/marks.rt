use spoc_base::{IfId, Row, ZoneId};

/// A way through a managed router, in by one interface and out by another.
#[derive(Clone, Copy, Debug, PartialEq, Eq)]
pub struct Crossing {
    pub enter: IfId,
    pub leave: IfId,
}

/// A leaving interface, and the interface of the next router that a walk then enters.
#[derive(Clone, Copy, Debug, PartialEq, Eq)]
pub struct Link {
    pub leave: IfId,
    pub enter: IfId,
}

/// The crossings and the links of walks, each ascending and without repeats.
#[derive(Debug, Drop)]
pub struct MarkTable {
    pub crossings: Row<Crossing>,
    pub links: Row<Link>,
}

/// The marks of the walks from one zone to another.
#[derive(Debug, Drop)]
pub struct PairMarks {
    pub from: ZoneId,
    pub to: ZoneId,
    pub marks: MarkTable,
}
