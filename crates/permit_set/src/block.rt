use spoc_base::{IfId, NetId, Row};

/// The lines for the packets from one network to another at an interface. `forward` has the
/// numbers of the permits from `src` to `dst`, `mirrored` those of the permits from `dst` to
/// `src` whose replies pass here, both ascending. Where `closed` is true, the lines end with a
/// deny of all from `src` to `dst`.
#[derive(Debug, Drop)]
pub struct PairBlock {
    pub src: NetId,
    pub dst: NetId,
    pub forward: Row<u32>,
    pub mirrored: Row<u32>,
    pub closed: bool,
}

/// What is placed at an interface, pair by pair.
#[derive(Debug, Drop)]
pub struct Placement {
    pub iface: IfId,
    pub pairs: Row<PairBlock>,
}
