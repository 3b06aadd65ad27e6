// Lists whose lines are joined, with groups of prefixes.
use crate::lists::{Cells, Kind, compare_lines, lines_of, prefix, rows_of};
use bumpalo::Bump;
use dev_config::List;
use object_groups::group;
use spoc_base::{NoMemory, Prefix};
use std::alloc::Global;
use std::process::Abort;
use std::test::Fail;

// The ends of lines: three hosts, two networks with one address, and groups of these.
const A: usize = 0;

const B: usize = 1;

const C: usize = 2;

const X: usize = 3;

const Y: usize = 4;

const A_B_C: usize = 5;

const X_Y: usize = 6;

const B_A: usize = 7;

const A_C: usize = 8;

const B_A_C: usize = 9;

const Y_X: usize = 10;

const X_X: usize = 11;

const TCP: Kind = Kind::Tcp((0, 65535), (0, 65535), false);

const UDP: Kind = Kind::Udp((0, 65535), (0, 65535));

// Lines, and those that come out.
static JOINED: [(&'static [Cells], &'static [Cells]); 9] = [
    // no lines
    (&[], &[]),
    // a line that isn't joined keeps its repeats
    (&[(true, A, X_X, TCP)], &[(true, A, X_X, TCP)]),
    // the same line twice
    (
        &[(true, A, X, TCP), (true, A, X, TCP)],
        &[(true, A, X, TCP)],
    ),
    // two destinations
    (
        &[(true, A, X, TCP), (true, A, Y, TCP)],
        &[(true, A, X_Y, TCP)],
    ),
    // sources as they come, without repeats
    (
        &[(true, B_A, X, TCP), (true, A_C, X, TCP)],
        &[(true, B_A_C, X, TCP)],
    ),
    // groups at both ends, and a third source whose destinations are together only after a first turn
    (
        &[
            (true, A, X, TCP),
            (true, B, X, TCP),
            (true, A, Y, TCP),
            (true, B, Y, TCP),
            (true, C, X, TCP),
            (true, C, Y, TCP),
        ],
        &[(true, A_B_C, X_Y, TCP)],
    ),
    // a line of the other action between two of one
    (
        &[
            (true, A, X, TCP),
            (false, B, X, TCP),
            (true, C, X, TCP),
            (true, C, Y, TCP),
        ],
        &[(true, A, X, TCP), (false, B, X, TCP), (true, C, X_Y, TCP)],
    ),
    // a line of other transports between two of one
    (
        &[(true, A, X, TCP), (true, B, X, UDP), (true, C, X, TCP)],
        &[(true, A, X, TCP), (true, B, X, UDP), (true, C, X, TCP)],
    ),
    // the same destinations in another order
    (
        &[(true, A, X_Y, TCP), (true, B, Y_X, TCP)],
        &[(true, A, X_Y, TCP), (true, B, Y_X, TCP)],
    ),
];

fn compare(
    rt: &impl Abort,
    alloc: Global,
    prefixes: &[&[Prefix]],
    given: &[Cells],
    wanted: &[Cells],
) -> Result<(), NoMemory> {
    let given = rows_of(alloc, given)?;
    let given = lines_of(rt, alloc, &given, prefixes)?;
    let wanted = rows_of(alloc, wanted)?;
    let wanted = lines_of(rt, alloc, &wanted, prefixes)?;
    let scratch = Bump::new(alloc);
    let found = group(alloc, &scratch, &List { lines: &given })?;
    compare_lines(rt, found.lines, &wanted);
    Ok(())
}

#[test]
fn lines_of_equal_form_are_joined(rt: HostRuntime) -> Result<(), Fail> {
    let a = prefix(&rt, 0x0a01_0101, 32);
    let b = prefix(&rt, 0x0a01_0102, 32);
    let c = prefix(&rt, 0x0a01_0103, 32);
    let x = prefix(&rt, 0x0a02_0000, 24);
    let y = prefix(&rt, 0x0a02_0000, 16);
    let all = [a, b, c, x, y, b, a, c, y, x, x];
    let prefixes = [
        &all[..1],
        &all[1..2],
        &all[2..3],
        &all[3..4],
        &all[4..5],
        &all[..3],
        &all[3..5],
        &all[5..7],
        &all[6..8],
        &all[5..8],
        &all[8..10],
        &all[9..],
    ];
    for (given, wanted) in &JOINED {
        compare(&rt, rt.alloc(), &prefixes, *given, *wanted)?;
    }
    Ok(())
}
