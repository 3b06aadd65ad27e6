// What a device is set up with: its file, byte for byte, and what it does with packets.
use crate::lists::{Kind, Row, lines_of, prefix};
use acl_print::print;
use dev_config::{Config, Header, Line, List, Port, Route, first_match, lookup};
use spoc_base::{Addr, Dialect, IfId, NoMemory, Prefix, Transport};
use std::alloc::Global;
use std::process::Abort;
use std::test::Fail;

// ---- files

const IOS: &str = "\
! r1 IOS
ip route 10.3.0.0 255.255.0.0 10.1.2.9
ip access-list extended E1_in
 permit tcp 10.1.1.0 0.0.0.255 host 10.1.2.5 eq 80
 deny udp any range 1024 65535 10.1.1.0 0.0.0.255 eq 53
 permit tcp host 10.1.2.5 eq 80 10.1.1.0 0.0.0.255 established
 permit icmp host 10.1.2.5 any 3 1
 permit icmp any any
 permit 50 any any
 deny ip any any
ip access-list extended E2_in
 permit tcp 10.1.1.0 0.0.0.255 host 10.1.2.5 eq 80
 deny udp any range 1024 65535 10.1.1.0 0.0.0.255 eq 53
 permit tcp host 10.1.2.5 eq 80 10.1.1.0 0.0.0.255 established
 permit icmp host 10.1.2.5 any 3 1
 permit icmp any any
 permit 50 any any
 deny ip any any
interface E1
 ip access-group E1_in in
interface E2
 ip access-group E2_in in
";

const ASA: &str = "\
! r1 ASA
route E2 10.3.0.0 255.255.0.0 10.1.2.9
object-group network g0
 network-object host 10.1.2.5
 network-object 10.1.1.0 255.255.255.0
object-group network g1
 network-object 10.1.1.0 255.255.255.0
 network-object 0.0.0.0 0.0.0.0
access-list E1_in extended permit tcp object-group g0 object-group g1 eq 80
access-list E1_in extended permit udp object-group g1 range 1024 65535 10.1.1.0 255.255.255.0
access-list E1_in extended deny ip any host 10.1.2.5
access-list E2_in extended permit tcp object-group g0 object-group g1 eq 80
access-list E2_in extended permit udp object-group g1 range 1024 65535 10.1.1.0 255.255.255.0
access-list E2_in extended deny ip any host 10.1.2.5
access-group E1_in in interface E1
access-group E2_in in interface E2
";

// The ends of lines: a network, a host, all, and two lists of two.
const NEAR: usize = 0;

const HOST: usize = 1;

const ALL: usize = 2;

const HOST_NEAR: usize = 3;

const NEAR_ALL: usize = 4;

const FULL: (u16, u16) = (0, 65535);

static IOS_LINES: [Row; 7] = [
    Row {
        permit: true,
        src: NEAR,
        dst: HOST,
        kind: Kind::Tcp(FULL, (80, 80), false),
    },
    Row {
        permit: false,
        src: ALL,
        dst: NEAR,
        kind: Kind::Udp((1024, 65535), (53, 53)),
    },
    Row {
        permit: true,
        src: HOST,
        dst: NEAR,
        kind: Kind::Tcp((80, 80), FULL, true),
    },
    Row {
        permit: true,
        src: HOST,
        dst: ALL,
        kind: Kind::Icmp(Some(3), Some(1)),
    },
    Row {
        permit: true,
        src: ALL,
        dst: ALL,
        kind: Kind::Icmp(None, None),
    },
    Row {
        permit: true,
        src: ALL,
        dst: ALL,
        kind: Kind::Other(50),
    },
    Row {
        permit: false,
        src: ALL,
        dst: ALL,
        kind: Kind::Any,
    },
];

static ASA_LINES: [Row; 3] = [
    Row {
        permit: true,
        src: HOST_NEAR,
        dst: NEAR_ALL,
        kind: Kind::Tcp(FULL, (80, 80), false),
    },
    Row {
        permit: true,
        src: NEAR_ALL,
        dst: NEAR,
        kind: Kind::Udp((1024, 65535), FULL),
    },
    Row {
        permit: false,
        src: ALL,
        dst: HOST,
        kind: Kind::Any,
    },
];

// Two ports with these lines each, and a route by the second port.
fn compare_file(
    rt: &impl Abort,
    alloc: Global,
    dialect: Dialect,
    lines: &[Line<'_>],
    text: &str,
) -> Result<(), NoMemory> {
    let connected = prefix(rt, 0x0a01_0200, 24);
    let ports = [
        Port {
            iface: IfId(4),
            hardware: b"E1",
            connected,
        },
        Port {
            iface: IfId(7),
            hardware: b"E2",
            connected,
        },
    ];
    let routes = [Route {
        net: prefix(rt, 0x0a03_0000, 16),
        gateway: Addr(0x0a01_0209),
        out: IfId(7),
    }];
    let lists = [List { lines }, List { lines }];
    let config = Config {
        lists: &lists,
        routes: &routes,
    };
    let printed = print(alloc, dialect, b"r1", &ports, &config)?;
    assert_eq!(rt; printed.bytes(), text.as_bytes());
    Ok(())
}

// The file with the lines of these rows.
fn compare_rows(
    rt: &impl Abort,
    alloc: Global,
    dialect: Dialect,
    rows: &[Row],
    text: &str,
) -> Result<(), NoMemory> {
    let near = prefix(rt, 0x0a01_0100, 24);
    let host = prefix(rt, 0x0a01_0205, 32);
    let all = prefix(rt, 0, 0);
    let pairs = [near, host, all, host, near, near, all];
    let prefixes = [
        &pairs[..1],
        &pairs[1..2],
        &pairs[2..3],
        &pairs[3..5],
        &pairs[5..],
    ];
    let lines = lines_of(rt, alloc, rows, &prefixes)?;
    compare_file(rt, alloc, dialect, &lines, text)
}

#[test]
fn files_are_printed(rt: HostRuntime) -> Result<(), Fail> {
    let alloc = rt.alloc();
    compare_rows(&rt, alloc, Dialect::Ios, &IOS_LINES, IOS)?;
    compare_rows(&rt, alloc, Dialect::Asa, &ASA_LINES, ASA)?;
    Ok(())
}

// ---- what a list passes and where a table sends

const FAR: usize = 1;

static FILTER: [Row; 3] = [
    Row {
        permit: true,
        src: NEAR,
        dst: FAR,
        kind: Kind::Tcp(FULL, (80, 80), false),
    },
    Row {
        permit: false,
        src: NEAR,
        dst: ALL,
        kind: Kind::Tcp(FULL, (0, 1023), false),
    },
    Row {
        permit: true,
        src: ALL,
        dst: FAR,
        kind: Kind::Any,
    },
];

// Ports and whether a packet to that port is passed.
static PASSED: [(u16, bool); 3] = [(80, true), (81, false), (5000, true)];

const ONE: Addr = Addr(0x0a01_0105);

const TWO: Addr = Addr(0x0a01_0207);

fn to(port: u16) -> Header {
    Header {
        src: ONE,
        dst: TWO,
        t: Transport::Tcp {
            src: 1024,
            dst: port,
            est: false,
        },
    }
}

fn compare_filter(rt: &impl Abort, list: &List<'_>) {
    for (port, passed) in &PASSED {
        assert_eq!(rt; first_match(list, &to(*port)), *passed, "{port}");
    }
}

#[test]
fn the_first_line_that_matches_decides(rt: HostRuntime) -> Result<(), Fail> {
    let near = prefix(&rt, 0x0a01_0100, 24);
    let far = prefix(&rt, 0x0a01_0200, 24);
    let all = prefix(&rt, 0, 0);
    let three = [near, far, all];
    let prefixes = [&three[..1], &three[1..2], &three[2..]];
    let lines = lines_of(&rt, rt.alloc(), &FILTER, &prefixes)?;
    compare_filter(&rt, &List { lines: &lines });
    assert!(rt; !first_match(&List { lines: &[] }, &to(80)));
    Ok(())
}

// An address, and the port and the gateway that it is sent by.
static SENT: [(Addr, IfId, Option<Addr>); 3] = [
    (TWO, IfId(5), Some(Addr(7))),
    (ONE, IfId(4), None),
    (Addr(1), IfId(5), None),
];

fn route(net: Prefix, gateway: u32) -> Route {
    Route {
        net,
        gateway: Addr(gateway),
        out: IfId(5),
    }
}

fn compare_table(rt: &impl Abort, config: &Config<'_>, ports: &[Port<'_>]) {
    for (address, out, gateway) in &SENT {
        let hop = lookup(config, ports, *address).expect(rt, "a prefix holds each address");
        assert_eq!(rt; hop.out, *out);
        assert_eq!(rt; hop.gateway, *gateway);
    }
}

// Whether a table without routes and ports sends an address nowhere.
fn nothing_sends(address: Addr) -> bool {
    let config = Config {
        lists: &[],
        routes: &[],
    };
    lookup(&config, &[], address).is_none()
}

#[test]
fn the_longest_prefix_sends(rt: HostRuntime) -> Result<(), Fail> {
    let near = prefix(&rt, 0x0a01_0100, 24);
    let far = prefix(&rt, 0x0a01_0200, 24);
    let ports = [
        Port {
            iface: IfId(4),
            hardware: b"E1",
            connected: near,
        },
        Port {
            iface: IfId(5),
            hardware: b"E2",
            connected: prefix(&rt, 0, 0),
        },
    ];
    let routes = [route(far, 7), route(far, 8), route(near, 9)];
    let config = Config {
        lists: &[],
        routes: &routes,
    };
    compare_table(&rt, &config, &ports);
    assert!(rt; nothing_sends(ONE));
    Ok(())
}
