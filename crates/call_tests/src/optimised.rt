// Lists without needless lines.
use crate::lists::{Cells, Kind, compare_lines, lines_of, prefix, rows_of};
use bumpalo::Bump;
use dev_config::List;
use local_optimise::optimise;
use spoc_base::{NoMemory, Prefix};
use std::alloc::Global;
use std::process::Abort;
use std::test::Fail;

// The ends of lines: a host, its network, another network, all addresses, and a group of the host and
// the other network.
const HOST: usize = 0;

const NET: usize = 1;

const OTHER: usize = 2;

const ANY: usize = 3;

const GROUP: usize = 4;

const ALL: (u16, u16) = (0, 65535);

const TCP: Kind = Kind::Tcp(ALL, ALL, false);

const REPLIES: Kind = Kind::Tcp(ALL, ALL, true);

const WEB: Kind = Kind::Tcp(ALL, (80, 80), false);

const MAIL: Kind = Kind::Tcp(ALL, (25, 25), false);

const LOW: Kind = Kind::Tcp(ALL, (1, 1023), false);

const PING: Kind = Kind::Icmp(Some(8), None);

// Lines, and those that come out.
static OPTIMISED: [(&'static [Cells], &'static [Cells]); 13] = [
    // no lines
    (&[], &[]),
    // covered by an earlier line of the other action
    (
        &[(false, NET, OTHER, TCP), (true, HOST, OTHER, WEB)],
        &[(false, NET, OTHER, TCP)],
    ),
    // covered by a later line
    (
        &[(true, HOST, OTHER, WEB), (true, NET, OTHER, TCP)],
        &[(true, NET, OTHER, TCP)],
    ),
    // between the two a line of the other action meets the first
    (
        &[
            (true, HOST, OTHER, WEB),
            (false, NET, OTHER, LOW),
            (true, ANY, ANY, Kind::Any),
        ],
        &[
            (true, HOST, OTHER, WEB),
            (false, NET, OTHER, LOW),
            (true, ANY, ANY, Kind::Any),
        ],
    ),
    // one that doesn't meet it
    (
        &[
            (true, HOST, OTHER, WEB),
            (false, NET, OTHER, MAIL),
            (true, ANY, ANY, Kind::Any),
        ],
        &[(false, NET, OTHER, MAIL), (true, ANY, ANY, Kind::Any)],
    ),
    // a denial that a denial below repeats, across permits of other headers
    (
        &[
            (false, HOST, OTHER, WEB),
            (true, HOST, OTHER, MAIL),
            (false, ANY, ANY, Kind::Any),
        ],
        &[(true, HOST, OTHER, MAIL), (false, ANY, ANY, Kind::Any)],
    ),
    // a permit above a denial that covers it
    (
        &[(true, HOST, OTHER, WEB), (false, ANY, ANY, Kind::Any)],
        &[(true, HOST, OTHER, WEB), (false, ANY, ANY, Kind::Any)],
    ),
    // established segments alone, behind all segments and before them
    (
        &[(true, NET, OTHER, TCP), (true, NET, OTHER, REPLIES)],
        &[(true, NET, OTHER, TCP)],
    ),
    (
        &[(true, NET, OTHER, REPLIES), (true, NET, OTHER, TCP)],
        &[(true, NET, OTHER, TCP)],
    ),
    // all segments behind established ones alone
    (
        &[(true, NET, OTHER, REPLIES), (true, NET, OTHER, WEB)],
        &[(true, NET, OTHER, REPLIES), (true, NET, OTHER, WEB)],
    ),
    // a type of ICMP, and a whole protocol
    (
        &[
            (true, NET, OTHER, Kind::Icmp(None, None)),
            (true, NET, OTHER, PING),
            (true, HOST, ANY, Kind::Any),
            (true, HOST, ANY, Kind::Other(50)),
        ],
        &[
            (true, NET, OTHER, Kind::Icmp(None, None)),
            (true, HOST, ANY, Kind::Any),
        ],
    ),
    // of two equal lines the first stays
    (
        &[
            (true, NET, OTHER, WEB),
            (true, HOST, ANY, MAIL),
            (true, NET, OTHER, WEB),
        ],
        &[(true, NET, OTHER, WEB), (true, HOST, ANY, MAIL)],
    ),
    // ends of several prefixes
    (
        &[
            (true, GROUP, ANY, WEB),
            (true, OTHER, NET, WEB),
            (true, NET, OTHER, WEB),
        ],
        &[(true, GROUP, ANY, WEB), (true, NET, OTHER, WEB)],
    ),
];

fn compare(
    rt: &impl Abort,
    alloc: Global,
    prefixes: &[&[Prefix]],
    given: &[Cells],
    wanted: &[Cells],
) -> Result<(), NoMemory> {
    let given = rows_of(alloc, given)?;
    let given = lines_of(rt, alloc, &given, prefixes)?;
    let wanted = rows_of(alloc, wanted)?;
    let wanted = lines_of(rt, alloc, &wanted, prefixes)?;
    let scratch = Bump::new(alloc);
    let found = optimise(alloc, &scratch, &List { lines: &given })?;
    compare_lines(rt, found.lines, &wanted);
    Ok(())
}

#[test]
fn needless_lines_are_left_out(rt: HostRuntime) -> Result<(), Fail> {
    let host = prefix(&rt, 0x0a01_0101, 32);
    let net = prefix(&rt, 0x0a01_0100, 24);
    let other = prefix(&rt, 0x0a02_0000, 24);
    let any = prefix(&rt, 0, 0);
    let all = [net, any, host, other];
    let prefixes = [&all[2..3], &all[..1], &all[3..], &all[1..2], &all[2..]];
    for (given, wanted) in &OPTIMISED {
        compare(&rt, rt.alloc(), &prefixes, *given, *wanted)?;
    }
    Ok(())
}
