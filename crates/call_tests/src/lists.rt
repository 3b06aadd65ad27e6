// Lists of lines for tests, by rows that are plain data.
use dev_config::Line;
use spoc_base::{Addr, NoMemory, PortRange, Prefix, TBox};
use std::alloc::Global;
use std::process::Abort;

// The headers of a line, with the first and the last port of each range.
#[derive(Clone, Copy, Debug)]
pub(crate) enum Kind {
    Any,
    Tcp((u16, u16), (u16, u16), bool),
    Udp((u16, u16), (u16, u16)),
    Icmp(Option<u8>, Option<u8>),
    Other(u8),
}

// A line, with its ends as places in a list of prefix lists.
#[derive(Clone, Copy)]
pub(crate) struct Row {
    pub(crate) permit: bool,
    pub(crate) src: usize,
    pub(crate) dst: usize,
    pub(crate) kind: Kind,
}

// A line: whether it permits, its ends, and its transports.
pub(crate) type Cells = (bool, usize, usize, Kind);

pub(crate) fn prefix(rt: &impl Abort, net: u32, len: u8) -> Prefix {
    Prefix::new(Addr(net), len).expect(rt, "no host bit is set")
}

fn ports(rt: &impl Abort, range: (u16, u16)) -> PortRange {
    PortRange::new(range.0, range.1).expect(rt, "the first isn't above the last")
}

pub(crate) fn headers(rt: &impl Abort, kind: Kind) -> TBox {
    match kind {
        Kind::Any => TBox::Any,
        Kind::Tcp(src, dst, est) => TBox::Tcp {
            src: ports(rt, src),
            dst: ports(rt, dst),
            est,
        },
        Kind::Udp(src, dst) => TBox::Udp {
            src: ports(rt, src),
            dst: ports(rt, dst),
        },
        Kind::Icmp(kind, code) => TBox::Icmp { kind, code },
        Kind::Other(proto) => TBox::Other { proto },
    }
}

// The lines of these rows.
pub(crate) fn lines_of<'p>(
    rt: &impl Abort,
    alloc: Global,
    rows: &[Row],
    prefixes: &[&'p [Prefix]],
) -> Result<Vec<Line<'p>>, NoMemory> {
    let mut lines = Vec::new(alloc);
    for row in rows {
        assert!(rt; row.src < prefixes.len() && row.dst < prefixes.len());
        let line = Line {
            permit: row.permit,
            src: prefixes[row.src],
            dst: prefixes[row.dst],
            t: headers(rt, row.kind),
        };
        let Ok(()) = lines.push(line) else {
            return Err(NoMemory);
        };
    }
    Ok(lines)
}

pub(crate) fn rows_of(alloc: Global, cells: &[Cells]) -> Result<Vec<Row>, NoMemory> {
    let mut rows = Vec::new(alloc);
    for (permit, src, dst, kind) in cells {
        rows.push(Row {
            permit: *permit,
            src: *src,
            dst: *dst,
            kind: *kind,
        })?;
    }
    Ok(rows)
}

pub(crate) fn compare_lines(rt: &impl Abort, found: &[Line<'_>], wanted: &[Line<'_>]) {
    assert_eq!(rt; found.len(), wanted.len());
    for (one, other) in found.iter().zip(wanted) {
        assert!(rt; one.permit == other.permit && one.t == other.t);
        assert_eq!(rt; one.src, other.src);
        assert_eq!(rt; one.dst, other.dst);
    }
}
