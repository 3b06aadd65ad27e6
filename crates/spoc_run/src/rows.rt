// Whole runs over policies that were worked out by hand: services with hosts and several protocols,
// areas, several routers, restrictions, routers that aren't managed, and an ASA.
use crate::cases::{CASE, Case, check_all};
use std::test::Fail;

// ---- one router

pub(crate) const ONE_ROUTER: &str = "\
router:r1 = {
 managed;
 model = IOS;
 interface:n1 = { ip = 10.1.1.1; hardware = E1; }
 interface:n2 = { ip = 10.1.2.1; hardware = E2; }
}
";

const HOSTS: &str = "\
network:n1 = { ip = 10.1.1.0/24; host:h = { range = 10.1.1.5-10.1.1.10; } }
network:n2 = { ip = 10.1.2.0/24; }
";

const HOSTS_SERVICE: &str = "\
service:s1 = {
 user = host:h;
 permit src = user; dst = network:n2; prt = tcp 80;
}
";

const HOSTS_FILE: &str = "\
! r1 IOS
ip access-list extended E1_in
 permit tcp host 10.1.1.5 10.1.2.0 0.0.0.255 eq 80
 permit tcp 10.1.1.6 0.0.0.1 10.1.2.0 0.0.0.255 eq 80
 permit tcp 10.1.1.8 0.0.0.1 10.1.2.0 0.0.0.255 eq 80
 permit tcp host 10.1.1.10 10.1.2.0 0.0.0.255 eq 80
 deny ip any any
ip access-list extended E2_in
 permit tcp 10.1.2.0 0.0.0.255 eq 80 host 10.1.1.5 established
 permit tcp 10.1.2.0 0.0.0.255 eq 80 10.1.1.6 0.0.0.1 established
 permit tcp 10.1.2.0 0.0.0.255 eq 80 10.1.1.8 0.0.0.1 established
 permit tcp 10.1.2.0 0.0.0.255 eq 80 host 10.1.1.10 established
 deny ip any any
interface E1
 ip access-group E1_in in
interface E2
 ip access-group E2_in in
";

pub(crate) const NETS: &str = "\
network:n1 = { ip = 10.1.1.0/24; }
network:n2 = { ip = 10.1.2.0/24; }
";

const PROTOCOLS_SERVICE: &str = "\
service:s1 = {
 user = network:n1;
 permit src = user; dst = network:n2; prt = tcp 0-65535, udp 123:123, udp 65535, icmp 3/13, proto 50;
}
";

const PROTOCOLS_FILE: &str = "\
! r1 IOS
ip access-list extended E1_in
 permit tcp 10.1.1.0 0.0.0.255 10.1.2.0 0.0.0.255
 permit udp 10.1.1.0 0.0.0.255 eq 123 10.1.2.0 0.0.0.255 eq 123
 permit udp 10.1.1.0 0.0.0.255 10.1.2.0 0.0.0.255 eq 65535
 permit icmp 10.1.1.0 0.0.0.255 10.1.2.0 0.0.0.255 3 13
 permit 50 10.1.1.0 0.0.0.255 10.1.2.0 0.0.0.255
 deny ip any any
ip access-list extended E2_in
 permit tcp 10.1.2.0 0.0.0.255 10.1.1.0 0.0.0.255 established
 permit udp 10.1.2.0 0.0.0.255 eq 123 10.1.1.0 0.0.0.255 eq 123
 permit udp 10.1.2.0 0.0.0.255 eq 65535 10.1.1.0 0.0.0.255
 deny ip any any
interface E1
 ip access-group E1_in in
interface E2
 ip access-group E2_in in
";

const ASA_ROUTER: &str = "\
router:r1 = {
 managed;
 model = ASA;
 interface:n1 = { ip = 10.1.1.1; hardware = E1; }
 interface:n2 = { ip = 10.1.2.1; hardware = E2; }
}
";

pub(crate) const WEB_SERVICE: &str = "\
service:s1 = {
 user = network:n1;
 permit src = user; dst = network:n2; prt = tcp 80;
}
";

const ASA_FILE: &str = "\
! r1 ASA
access-list E1_in extended permit tcp 10.1.1.0 255.255.255.0 10.1.2.0 255.255.255.0 eq 80
access-list E1_in extended deny ip any any
access-list E2_in extended deny ip any any
access-group E1_in in interface E1
access-group E2_in in interface E2
";

// The file for the one router and the service `WEB_SERVICE`.
pub(crate) const WEB_FILE: &str = "\
! r1 IOS
ip access-list extended E1_in
 permit tcp 10.1.1.0 0.0.0.255 10.1.2.0 0.0.0.255 eq 80
 deny ip any any
ip access-list extended E2_in
 permit tcp 10.1.2.0 0.0.0.255 eq 80 10.1.1.0 0.0.0.255 established
 deny ip any any
interface E1
 ip access-group E1_in in
interface E2
 ip access-group E2_in in
";

// ---- routers that aren't managed, areas, sets

const BEHIND: &str = "\
network:n3 = { ip = 10.1.3.0/24; }
router:u = { interface:n2; interface:n3; }
service:s1 = {
 user = network:n1;
 permit src = user; dst = network:n3; prt = tcp 80;
}
";

const BEHIND_FILE: &str = "\
! r1 IOS
ip access-list extended E1_in
 permit tcp 10.1.1.0 0.0.0.255 10.1.3.0 0.0.0.255 eq 80
 deny ip any any
ip access-list extended E2_in
 permit tcp 10.1.3.0 0.0.0.255 eq 80 10.1.1.0 0.0.0.255 established
 deny ip any any
interface E1
 ip access-group E1_in in
interface E2
 ip access-group E2_in in
";

const NO_ROUTER: &str = "\
network:n1 = { ip = 10.1.1.0/24; }
network:n2 = { ip = 10.1.2.0/24; }
router:u = { interface:n1; interface:n2; }
service:s1 = {
 user = network:n1;
 permit src = user; dst = network:n2; prt = tcp 80;
}
";

const LOCAL_SERVICE: &str = "\
service:s1 = {
 user = network:n2;
 permit src = user; dst = network:n2; prt = tcp 80;
}
";

const EMPTY_SET: &str = "\
service:s1 = {
 user = any:[network:n1] &! network:n1;
 permit src = user; dst = network:n2; prt = tcp 80;
}
";

const CLOSED: &str = "\
! r1 IOS
ip access-list extended E1_in
 deny ip any any
ip access-list extended E2_in
 deny ip any any
interface E1
 ip access-group E1_in in
interface E2
 ip access-group E2_in in
";

const SPLIT: &str = "area:a = { anchor = network:n1; border = interface:r1.n2; }\n";

const MANAGED_END: &str = "\
service:s1 = {
 user = network:n1;
 permit src = user; dst = interface:r1.n2; prt = tcp 80;
}
";

const NO_PATH: &str = "\
pathrestriction:x = interface:r1.n1, interface:r1.n2;
service:s1 = {
 user = network:n1;
 permit src = user; dst = network:n2; prt = tcp 80;
}
";

const TWICE: &str = "\
network:n1 = { ip = 10.1.1.0/24; nat:x = { ip = 192.0.2.0/24; } nat:y = { ip = 198.51.100.0/24; } }
network:n2 = { ip = 10.1.2.0/24; }
router:r1 = {
 managed;
 model = IOS;
 interface:n1 = { ip = 10.1.1.1; hardware = E1; }
 interface:n2 = { ip = 10.1.2.1; hardware = E2; bind_nat = x, y; }
}
";

const INSIDE: &str = "\
network:n1 = { ip = 10.1.1.0/24; }
network:n2 = { ip = 10.1.2.0/24; nat:x = { ip = 192.0.2.0/24; } }
router:r1 = {
 managed;
 model = IOS;
 interface:n1 = { ip = 10.1.1.1; hardware = E1; }
 interface:n2 = { ip = 10.1.2.1; hardware = E2; bind_nat = x; }
}
";

const CONFLICT: &str = "\
network:a = { ip = 10.0.1.0/24; nat:x = { ip = 192.0.2.0/24; } }
network:b = { ip = 10.0.2.0/24; }
router:r1 = {
 managed;
 model = IOS;
 interface:a = { ip = 10.0.1.1; hardware = E1; }
 interface:b = { ip = 10.0.2.1; hardware = E2; bind_nat = x; }
}
router:r2 = {
 managed;
 model = IOS;
 interface:a = { ip = 10.0.1.2; hardware = E1; }
 interface:b = { ip = 10.0.2.2; hardware = E2; }
}
";

// ---- several routers

pub(crate) const TRIANGLE: &str = "\
network:a = { ip = 10.0.1.0/24; }
network:b = { ip = 10.0.2.0/24; }
network:c = { ip = 10.0.3.0/24; }
router:r1 = {
 managed;
 model = IOS;
 interface:a = { ip = 10.0.1.1; hardware = E1; }
 interface:b = { ip = 10.0.2.1; hardware = E2; }
}
router:r2 = {
 managed;
 model = IOS;
 interface:b = { ip = 10.0.2.2; hardware = E1; }
 interface:c = { ip = 10.0.3.2; hardware = E2; }
}
router:r3 = {
 managed;
 model = IOS;
 interface:a = { ip = 10.0.1.3; hardware = E1; }
 interface:c = { ip = 10.0.3.3; hardware = E2; }
}
";

pub(crate) const RESTRICTED: &str = "\
pathrestriction:x = interface:r1.a, interface:r2.c;
service:s1 = {
 user = network:a;
 permit src = user; dst = network:c; prt = tcp 80;
}
";

pub(crate) const SHUT_R1: &str = "\
! r1 IOS
ip access-list extended E1_in
 deny ip any any
ip access-list extended E2_in
 deny ip any any
interface E1
 ip access-group E1_in in
interface E2
 ip access-group E2_in in
";

pub(crate) const SHUT_R2: &str = "\
! r2 IOS
ip access-list extended E1_in
 deny ip any any
ip access-list extended E2_in
 deny ip any any
interface E1
 ip access-group E1_in in
interface E2
 ip access-group E2_in in
";

const OPEN_R3: &str = "\
! r3 IOS
ip access-list extended E1_in
 permit tcp 10.0.1.0 0.0.0.255 10.0.3.0 0.0.0.255 eq 80
 deny ip any any
ip access-list extended E2_in
 permit tcp 10.0.3.0 0.0.0.255 eq 80 10.0.1.0 0.0.0.255 established
 deny ip any any
interface E1
 ip access-group E1_in in
interface E2
 ip access-group E2_in in
";

const TRIANGLE_SUMMARY: &str =
    "networks 3\nzones 3\nrouters 3\npermits 1\nlocal 0\nlines 8\nroutes 0\n";

static PLAIN: [Case; 3] = [
    // An empty folder is the empty policy.
    Case {
        text: "networks 0\nzones 0\nrouters 0\npermits 0\nlocal 0\nlines 0\nroutes 0\n",
        ..CASE
    },
    // One router and one service.
    Case {
        files: &[("p", &[NETS, ONE_ROUTER, WEB_SERVICE])],
        text: "networks 2\nzones 2\nrouters 1\npermits 1\nlocal 0\nlines 4\nroutes 0\n",
        held: &[("r1", WEB_FILE)],
        ..CASE
    },
    // No managed router: without a managed router no file is written.
    Case {
        files: &[("p", &[NO_ROUTER])],
        text: "networks 2\nzones 1\nrouters 0\npermits 1\nlocal 1\nlines 0\nroutes 0\n",
        ..CASE
    },
];

#[test]
fn one_router_and_none(rt: HostRuntime) -> Result<(), Fail> {
    check_all(&rt, rt.alloc(), &PLAIN)?;
    Ok(())
}

static LOCAL: [Case; 2] = [
    // A service within a zone.
    Case {
        files: &[("p", &[NETS, ONE_ROUTER, LOCAL_SERVICE])],
        text: "networks 2\nzones 2\nrouters 1\npermits 1\nlocal 1\nlines 2\nroutes 0\n",
        held: &[("r1", CLOSED)],
        ..CASE
    },
    // A set with nothing in it.
    Case {
        files: &[("p", &[NETS, ONE_ROUTER, EMPTY_SET])],
        text: "networks 2\nzones 2\nrouters 1\npermits 0\nlocal 0\nlines 2\nroutes 0\n",
        held: &[("r1", CLOSED)],
        ..CASE
    },
];

#[test]
fn lists_without_a_permit(rt: HostRuntime) -> Result<(), Fail> {
    check_all(&rt, rt.alloc(), &LOCAL)?;
    Ok(())
}

static SEVERAL_FILES: [Case; 1] = [
    // A range of hosts in several files: the policy stands in three files, two of them in a folder; others are skipped.
    Case {
        files: &[
            ("config", &["no policy"]),
            ("rules", &[HOSTS_SERVICE]),
            ("net/r1~", &["no policy"]),
            ("net/r1", &[ONE_ROUTER]),
            ("net/hosts", &[HOSTS]),
        ],
        text: "networks 2\nzones 2\nrouters 1\npermits 1\nlocal 0\nlines 10\nroutes 0\n",
        held: &[("r1", HOSTS_FILE)],
        ..CASE
    },
];

#[test]
fn a_range_of_hosts_in_several_files(rt: HostRuntime) -> Result<(), Fail> {
    check_all(&rt, rt.alloc(), &SEVERAL_FILES)?;
    Ok(())
}

static PROTOCOLS: [Case; 1] = [
    // Several protocols.
    Case {
        files: &[("p", &[NETS, ONE_ROUTER, PROTOCOLS_SERVICE])],
        text: "networks 2\nzones 2\nrouters 1\npermits 5\nlocal 0\nlines 10\nroutes 0\n",
        held: &[("r1", PROTOCOLS_FILE)],
        ..CASE
    },
];

#[test]
fn several_protocols(rt: HostRuntime) -> Result<(), Fail> {
    check_all(&rt, rt.alloc(), &PROTOCOLS)?;
    Ok(())
}

static OTHER_ROUTERS: [Case; 2] = [
    // A router that keeps state.
    Case {
        files: &[("p", &[NETS, ASA_ROUTER, WEB_SERVICE])],
        text: "networks 2\nzones 2\nrouters 1\npermits 1\nlocal 0\nlines 3\nroutes 0\n",
        held: &[("r1", ASA_FILE)],
        ..CASE
    },
    // A network behind an unmanaged router.
    Case {
        files: &[("p", &[NETS, ONE_ROUTER, BEHIND])],
        text: "networks 3\nzones 2\nrouters 1\npermits 1\nlocal 0\nlines 4\nroutes 0\n",
        held: &[("r1", BEHIND_FILE)],
        ..CASE
    },
];

#[test]
fn routers_that_keep_state_or_are_not_managed(rt: HostRuntime) -> Result<(), Fail> {
    check_all(&rt, rt.alloc(), &OTHER_ROUTERS)?;
    Ok(())
}

static ONE_WALK: [Case; 1] = [
    // A restriction leaves one walk.
    Case {
        files: &[("p", &[TRIANGLE, RESTRICTED])],
        text: TRIANGLE_SUMMARY,
        held: &[("r1", SHUT_R1), ("r2", SHUT_R2), ("r3", OPEN_R3)],
        ..CASE
    },
];

#[test]
fn a_restriction_leaves_one_walk(rt: HostRuntime) -> Result<(), Fail> {
    check_all(&rt, rt.alloc(), &ONE_WALK)?;
    Ok(())
}

static REFUSED: [Case; 3] = [
    // A border whose zone isn't in its area.
    Case {
        files: &[("p", &[NETS, ONE_ROUTER, SPLIT])],
        status: 1,
        text: "fault AreaSplit area:a interface:r1.n2\n",
        ..CASE
    },
    // An interface of a managed router as an end.
    Case {
        files: &[("p", &[NETS, ONE_ROUTER, MANAGED_END])],
        status: 1,
        text: "fault ManagedEnd service:s1 interface:r1.n2\n",
        ..CASE
    },
    // No allowed walk.
    Case {
        files: &[("p", &[NETS, ONE_ROUTER, NO_PATH])],
        status: 1,
        text: "fault NoPath network:n1 network:n2\n",
        ..CASE
    },
];

#[test]
fn areas_services_and_walks_are_refused(rt: HostRuntime) -> Result<(), Fail> {
    check_all(&rt, rt.alloc(), &REFUSED)?;
    Ok(())
}

static TRANSLATIONS: [Case; 3] = [
    // Two tags of a network in one zone.
    Case {
        files: &[("p", &[TWICE])],
        status: 1,
        text: "fault NatTwice network:n1 zone:n2 nat:x nat:y\n",
        ..CASE
    },
    // A network translated in its own zone.
    Case {
        files: &[("p", &[INSIDE])],
        status: 1,
        text: "fault NatInside network:n2 nat:x\n",
        ..CASE
    },
    // A tag in force where it must not be.
    Case {
        files: &[("p", &[CONFLICT])],
        status: 1,
        text: "fault NatConflict nat:x zone:a\n",
        ..CASE
    },
];

#[test]
fn translations_are_refused(rt: HostRuntime) -> Result<(), Fail> {
    check_all(&rt, rt.alloc(), &TRANSLATIONS)?;
    Ok(())
}
