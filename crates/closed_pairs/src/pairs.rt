use spoc_base::{NetId, Prefix, TBox};

/// The permits of a pair of networks at an interface, by their numbers: those from its source to
/// its destination, and those of the way back whose replies pass here.
#[derive(Clone, Copy)]
pub struct PairPermits<'p> {
    pub src: NetId,
    pub dst: NetId,
    pub forward: &'p [u32],
    pub mirrored: &'p [u32],
}

/// A line that permits a set of transports from one prefix to another.
#[derive(Clone, Copy)]
pub(crate) struct PermitLine {
    pub(crate) src: Prefix,
    pub(crate) dst: Prefix,
    pub(crate) t: TBox,
}

/// The prefixes of a pair's networks where the view is, none where they are hidden.
#[derive(Clone, Copy)]
pub(crate) struct Ends {
    pub(crate) src: Option<Prefix>,
    pub(crate) dst: Option<Prefix>,
}
