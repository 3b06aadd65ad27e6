// Whole runs over policies with shared addresses and with hidden networks, with lists that were worked out by hand.
use crate::cases::{CASE, Case, check_all};
use crate::rows::{NETS, ONE_ROUTER, SHUT_R1, SHUT_R2, WEB_SERVICE};
use std::test::Fail;

// ---- shared addresses

const SHARING: &str = "\
network:a = { ip = 10.0.1.0/24; }
network:b = { ip = 10.0.2.0/24; }
network:c = { ip = 10.0.3.0/24; }
router:r1 = {
 managed;
 model = IOS;
 interface:a = { ip = 10.0.1.1; hardware = E1; virtual = { ip = 10.0.1.100; type = VRRP; id = 7; } }
 interface:b = { ip = 10.0.2.1; hardware = E2; }
}
router:r2 = {
 managed;
 model = IOS;
 interface:b = { ip = 10.0.2.2; hardware = E1; }
 interface:c = { ip = 10.0.3.2; hardware = E2; }
}
router:r3 = {
 managed;
 model = IOS;
 interface:a = { ip = 10.0.1.3; hardware = E1; virtual = { ip = 10.0.1.100; } }
 interface:c = { ip = 10.0.3.3; hardware = E2; }
}
service:s1 = {
 user = network:b;
 permit src = user; dst = network:c; prt = tcp 80;
}
";

const SHARING_R2: &str = "\
! r2 IOS
ip access-list extended E1_in
 permit tcp 10.0.2.0 0.0.0.255 10.0.3.0 0.0.0.255 eq 80
 deny ip any any
ip access-list extended E2_in
 permit tcp 10.0.3.0 0.0.0.255 eq 80 10.0.2.0 0.0.0.255 established
 deny ip any any
interface E1
 ip access-group E1_in in
interface E2
 ip access-group E2_in in
";

const SHUT_R3: &str = "\
! r3 IOS
ip access-list extended E1_in
 deny ip any any
ip access-list extended E2_in
 deny ip any any
interface E1
 ip access-group E1_in in
interface E2
 ip access-group E2_in in
";

const HUB: &str = "\
network:hub = { ip = 10.0.0.0/24; }
network:n1 = { ip = 10.1.1.0/24; }
network:n2 = { ip = 10.1.2.0/24; }
network:n3 = { ip = 10.1.3.0/24; }
router:r1 = {
 managed;
 model = IOS;
 interface:hub = { ip = 10.0.0.1; hardware = E1; virtual = { ip = 10.0.0.100; } }
 interface:n1 = { ip = 10.1.1.1; hardware = E2; }
}
router:r2 = {
 managed;
 model = IOS;
 interface:hub = { ip = 10.0.0.2; hardware = E1; virtual = { ip = 10.0.0.100; } }
 interface:n2 = { ip = 10.1.2.1; hardware = E2; }
}
";

const THIRD_ALIKE: &str = "\
router:r3 = {
 managed;
 model = IOS;
 interface:hub = { ip = 10.0.0.3; hardware = E1; virtual = { ip = 10.0.0.100; } }
 interface:n3 = { ip = 10.1.3.1; hardware = E2; }
}
service:s1 = {
 user = network:n1;
 permit src = user; dst = network:n3; prt = tcp 80;
}
";

const THIRD_OTHER: &str = "\
router:r3 = {
 managed;
 model = IOS;
 interface:hub = { ip = 10.0.0.3; hardware = E1; virtual = { ip = 10.0.0.200; } }
 interface:n3 = { ip = 10.1.3.1; hardware = E2; }
}
service:s1 = {
 user = network:n1;
 permit src = user; dst = network:n3; prt = tcp 80;
}
";

const HUB_R1: &str = "\
! r1 IOS
ip access-list extended E1_in
 permit tcp 10.1.3.0 0.0.0.255 eq 80 10.1.1.0 0.0.0.255 established
 deny ip any any
ip access-list extended E2_in
 permit tcp 10.1.1.0 0.0.0.255 10.1.3.0 0.0.0.255 eq 80
 deny ip any any
interface E1
 ip access-group E1_in in
interface E2
 ip access-group E2_in in
";

const HUB_R3: &str = "\
! r3 IOS
ip access-list extended E1_in
 permit tcp 10.1.1.0 0.0.0.255 10.1.3.0 0.0.0.255 eq 80
 deny ip any any
ip access-list extended E2_in
 permit tcp 10.1.3.0 0.0.0.255 eq 80 10.1.1.0 0.0.0.255 established
 deny ip any any
interface E1
 ip access-group E1_in in
interface E2
 ip access-group E2_in in
";

const TWO_OF_ONE_ROUTER: &str = "\
network:a = { ip = 10.0.1.0/24; }
network:b = { ip = 10.0.2.0/24; }
network:c = { ip = 10.0.3.0/24; }
router:u = { interface:a = { ip = 10.0.1.2; } interface:b = { ip = 10.0.2.2; } }
router:r1 = {
 managed;
 model = IOS;
 interface:a = { ip = 10.0.1.1; hardware = E1; virtual = { ip = 10.0.1.100; } }
 interface:b = { ip = 10.0.2.1; hardware = E2; virtual = { ip = 10.0.2.100; } }
 interface:c = { ip = 10.0.3.1; hardware = E3; }
}
router:r2 = {
 managed;
 model = IOS;
 interface:a = { ip = 10.0.1.3; hardware = E1; virtual = { ip = 10.0.1.100; } }
 interface:c = { ip = 10.0.3.2; hardware = E2; }
}
service:s1 = {
 user = network:a;
 permit src = user; dst = network:c; prt = tcp 80;
}
";

const TWO_OF_ONE_ROUTER_R1: &str = "\
! r1 IOS
ip access-list extended E1_in
 permit tcp 10.0.1.0 0.0.0.255 10.0.3.0 0.0.0.255 eq 80
 deny ip any any
ip access-list extended E2_in
 permit tcp 10.0.1.0 0.0.0.255 10.0.3.0 0.0.0.255 eq 80
 deny ip any any
ip access-list extended E3_in
 permit tcp 10.0.3.0 0.0.0.255 eq 80 10.0.1.0 0.0.0.255 established
 deny ip any any
interface E1
 ip access-group E1_in in
interface E2
 ip access-group E2_in in
interface E3
 ip access-group E3_in in
";

const TWO_OF_ONE_ROUTER_R2: &str = "\
! r2 IOS
ip access-list extended E1_in
 permit tcp 10.0.1.0 0.0.0.255 10.0.3.0 0.0.0.255 eq 80
 deny ip any any
ip access-list extended E2_in
 permit tcp 10.0.3.0 0.0.0.255 eq 80 10.0.1.0 0.0.0.255 established
 deny ip any any
interface E1
 ip access-group E1_in in
interface E2
 ip access-group E2_in in
";

static SHARED: [Case; 4] = [
    // A walk that enters by one of two sharers and leaves by the other is shut: the way over r1 and r3 is none.
    Case {
        files: &[("p", &[SHARING])],
        text: "networks 3\nzones 3\nrouters 3\npermits 1\nlocal 0\nlines 8\nroutes 0\n",
        held: &[("r1", SHUT_R1), ("r2", SHARING_R2), ("r3", SHUT_R3)],
        ..CASE
    },
    // Three sharers of one network: no walk uses two of them.
    Case {
        files: &[("p", &[HUB, THIRD_ALIKE])],
        status: 1,
        text: "fault NoPath network:n1 network:n3\n",
        ..CASE
    },
    // Two shared addresses in one network.
    Case {
        files: &[("p", &[HUB, THIRD_OTHER])],
        text: "networks 4\nzones 4\nrouters 3\npermits 1\nlocal 0\nlines 10\nroutes 0\n",
        held: &[("r1", HUB_R1), ("r2", SHUT_R2), ("r3", HUB_R3)],
        ..CASE
    },
    // A sharer at a router with a second interface in that zone, which has a shared address of its own.
    Case {
        files: &[("p", &[TWO_OF_ONE_ROUTER])],
        text: "networks 3\nzones 2\nrouters 2\npermits 1\nlocal 0\nlines 10\nroutes 0\n",
        held: &[("r1", TWO_OF_ONE_ROUTER_R1), ("r2", TWO_OF_ONE_ROUTER_R2)],
        ..CASE
    },
];

#[test]
fn sharers_are_restricted(rt: HostRuntime) -> Result<(), Fail> {
    check_all(&rt, rt.alloc(), &SHARED)?;
    Ok(())
}

const OWN_OF_ANOTHER: &str = "\
router:r1 = {
 managed;
 model = IOS;
 interface:n1 = { ip = 10.1.1.1; hardware = E1; virtual = { ip = 10.1.1.9; } }
 interface:n2 = { ip = 10.1.2.1; hardware = E2; }
}
router:u = { interface:n1 = { ip = 10.1.1.9; } }
";

const SHARED_INSIDE: &str = "\
network:sub = { ip = 10.1.2.128/25; }
router:r1 = {
 managed;
 model = IOS;
 interface:n1 = { ip = 10.1.1.1; hardware = E1; }
 interface:n2 = { ip = 10.1.2.1; hardware = E2; virtual = { ip = 10.1.2.200; } }
}
router:u = { interface:n2 = { ip = 10.1.2.2; } interface:sub; }
";

const OWN_OF_A_LATER_ROUTER: &str = "\
network:a = { ip = 10.0.1.0/24; }
network:b = { ip = 10.0.2.0/24; }
network:c = { ip = 10.0.3.0/24; }
network:s = { ip = 10.0.0.0/24; }
router:r1 = {
 managed;
 model = IOS;
 interface:a = { ip = 10.0.1.1; hardware = E1; virtual = { ip = 10.0.1.9; } }
 interface:b = { ip = 10.0.2.1; hardware = E2; }
}
router:r2 = {
 managed;
 model = IOS;
 interface:b = { ip = 10.0.2.2; hardware = E1; }
 interface:c = { ip = 10.0.3.2; hardware = E2; }
}
router:r3 = {
 managed;
 model = IOS;
 interface:a = { ip = 10.0.1.3; hardware = E1; virtual = { ip = 10.0.1.9; } }
 interface:c = { ip = 10.0.3.3; hardware = E2; }
}
router:r0 = {
 managed;
 model = IOS;
 interface:s = { ip = 10.0.0.1; hardware = E1; }
 interface:a = { ip = 10.0.1.9; hardware = E2; }
}
service:s1 = {
 user = network:s;
 permit src = user; dst = network:c; prt = tcp 80;
}
";

static NOT_SHARED: [Case; 3] = [
    // The shared address is the own one of a later interface.
    Case {
        files: &[("p", &[NETS, OWN_OF_ANOTHER])],
        status: 1,
        text: "fault Shape S15 router:r1\n",
        ..CASE
    },
    // Two sharers have what is the own address of a managed router.
    Case {
        files: &[("p", &[OWN_OF_A_LATER_ROUTER])],
        status: 1,
        text: "fault Shape S15 router:r1\n",
        ..CASE
    },
    // It lies at a network inside its own.
    Case {
        files: &[("p", &[NETS, SHARED_INSIDE])],
        status: 1,
        text: "fault HostShadowed interface:r1.n2 network:sub zone:n1\n",
        ..CASE
    },
];

#[test]
fn shared_addresses_are_refused(rt: HostRuntime) -> Result<(), Fail> {
    check_all(&rt, rt.alloc(), &NOT_SHARED)?;
    Ok(())
}

// ---- hidden networks

const HIDDEN_SOURCE: &str = "\
network:n1 = { ip = 10.1.1.0/24; nat:x = { hidden; } }
network:n2 = { ip = 10.1.2.0/24; }
router:r1 = {
 managed;
 model = IOS;
 interface:n1 = { ip = 10.1.1.1; hardware = E1; }
 interface:n2 = { ip = 10.1.2.1; hardware = E2; bind_nat = x; }
}
";

const HIDDEN_DESTINATION: &str = "\
network:n1 = { ip = 10.1.1.0/24; }
network:n2 = { ip = 10.1.2.0/24; nat:x = { hidden; } }
router:r1 = {
 managed;
 model = IOS;
 interface:n1 = { ip = 10.1.1.1; hardware = E1; bind_nat = x; }
 interface:n2 = { ip = 10.1.2.1; hardware = E2; }
}
";

const HIDDEN_INSIDE: &str = "\
network:n1 = { ip = 10.1.1.0/24; }
network:n2 = { ip = 10.1.2.0/24; nat:x = { hidden; } }
router:r1 = {
 managed;
 model = IOS;
 interface:n1 = { ip = 10.1.1.1; hardware = E1; }
 interface:n2 = { ip = 10.1.2.1; hardware = E2; bind_nat = x; }
}
";

static HIDDEN_ENDS: [Case; 3] = [
    // A source that the destination's zone doesn't see, which could not be replied to.
    Case {
        files: &[("p", &[HIDDEN_SOURCE, WEB_SERVICE])],
        status: 1,
        text: "fault HiddenEnd network:n1 network:n2 network:n1 zone:n2\n",
        ..CASE
    },
    // A destination that the source's zone doesn't see.
    Case {
        files: &[("p", &[HIDDEN_DESTINATION, WEB_SERVICE])],
        status: 1,
        text: "fault HiddenEnd network:n1 network:n2 network:n2 zone:n1\n",
        ..CASE
    },
    // A network that is hidden in its own zone.
    Case {
        files: &[("p", &[HIDDEN_INSIDE, WEB_SERVICE])],
        status: 1,
        text: "fault NatInside network:n2 nat:x\n",
        ..CASE
    },
];

#[test]
fn hidden_ends_are_refused(rt: HostRuntime) -> Result<(), Fail> {
    check_all(&rt, rt.alloc(), &HIDDEN_ENDS)?;
    Ok(())
}

const HIDDEN_ELSEWHERE: &str = "\
network:n1 = { ip = 10.1.1.0/24; nat:x = { hidden; } }
network:n2 = { ip = 10.1.2.0/24; }
network:n3 = { ip = 10.1.3.0/24; }
router:r1 = {
 managed;
 model = IOS;
 interface:n1 = { ip = 10.1.1.1; hardware = E1; }
 interface:n2 = { ip = 10.1.2.1; hardware = E2; }
 interface:n3 = { ip = 10.1.3.1; hardware = E3; bind_nat = x; }
}
";

const HIDDEN_ELSEWHERE_FILE: &str = "\
! r1 IOS
ip access-list extended E1_in
 permit tcp 10.1.1.0 0.0.0.255 10.1.2.0 0.0.0.255 eq 80
 deny ip any any
ip access-list extended E2_in
 permit tcp 10.1.2.0 0.0.0.255 eq 80 10.1.1.0 0.0.0.255 established
 deny ip any any
ip access-list extended E3_in
 deny ip any any
interface E1
 ip access-group E1_in in
interface E2
 ip access-group E2_in in
interface E3
 ip access-group E3_in in
";

const HIDDEN_OR_TRANSLATED: &str = "\
network:n1 = { ip = 10.1.1.0/24; nat:x = { hidden; } nat:y = { ip = 192.0.2.0/24; } }
network:n2 = { ip = 10.1.2.0/24; }
network:n3 = { ip = 10.1.3.0/24; }
router:r1 = {
 managed;
 model = IOS;
 interface:n1 = { ip = 10.1.1.1; hardware = E1; }
 interface:n2 = { ip = 10.1.2.1; hardware = E2; bind_nat = y; }
 interface:n3 = { ip = 10.1.3.1; hardware = E3; bind_nat = x; }
}
";

const HIDDEN_OR_TRANSLATED_FILE: &str = "\
! r1 IOS
ip access-list extended E1_in
 permit tcp 10.1.1.0 0.0.0.255 10.1.2.0 0.0.0.255 eq 80
 deny ip any any
ip access-list extended E2_in
 permit tcp 10.1.2.0 0.0.0.255 eq 80 192.0.2.0 0.0.0.255 established
 deny ip any any
ip access-list extended E3_in
 deny ip any any
interface E1
 ip access-group E1_in in
interface E2
 ip access-group E2_in in
interface E3
 ip access-group E3_in in
";

static HIDDEN: [Case; 2] = [
    // Hidden where no service of it leads.
    Case {
        files: &[("p", &[HIDDEN_ELSEWHERE, WEB_SERVICE])],
        text: "networks 3\nzones 3\nrouters 1\npermits 1\nlocal 0\nlines 5\nroutes 0\n",
        held: &[("r1", HIDDEN_ELSEWHERE_FILE)],
        ..CASE
    },
    // Hidden in one zone and translated in another.
    Case {
        files: &[("p", &[HIDDEN_OR_TRANSLATED, WEB_SERVICE])],
        text: "networks 3\nzones 3\nrouters 1\npermits 1\nlocal 0\nlines 5\nroutes 0\n",
        held: &[("r1", HIDDEN_OR_TRANSLATED_FILE)],
        ..CASE
    },
];

#[test]
fn hidden_networks_have_no_lines(rt: HostRuntime) -> Result<(), Fail> {
    check_all(&rt, rt.alloc(), &HIDDEN)?;
    Ok(())
}

const HIDDEN_TWINS: &str = "\
network:a = { ip = 10.0.0.0/24; nat:x = { hidden; } }
network:link = { ip = 172.16.0.0/30; }
network:b = { ip = 10.0.0.0/24; nat:y = { hidden; } }
router:r1 = {
 managed;
 model = IOS;
 interface:a = { ip = 10.0.0.1; hardware = E1; }
 interface:link = { ip = 172.16.0.1; hardware = E2; bind_nat = x; }
}
router:r2 = {
 managed;
 model = IOS;
 interface:link = { ip = 172.16.0.2; hardware = E1; bind_nat = y; }
 interface:b = { ip = 10.0.0.1; hardware = E2; }
}
service:s1 = {
 user = network:a;
 permit src = user; dst = user; prt = ip;
}
";

const HIDDEN_INNER: &str = "\
network:n1 = { ip = 10.1.1.0/24; }
network:big = { ip = 10.2.0.0/16; }
network:sub = { ip = 10.2.1.0/24; nat:x = { hidden; } }
router:r1 = {
 managed;
 model = IOS;
 interface:n1 = { ip = 10.1.1.1; hardware = E1; bind_nat = x; }
 interface:big = { ip = 10.2.0.1; hardware = E2; }
 interface:sub = { ip = 10.2.1.1; hardware = E3; }
}
service:s1 = {
 user = network:n1;
 permit src = user; dst = network:big; prt = tcp 80;
}
";

const HIDDEN_INNER_FILE: &str = "\
! r1 IOS
ip access-list extended E1_in
 permit tcp 10.1.1.0 0.0.0.255 10.2.0.0 0.0.255.255 eq 80
 deny ip any any
ip access-list extended E2_in
 permit tcp 10.2.0.0 0.0.255.255 eq 80 10.1.1.0 0.0.0.255 established
 deny ip any any
ip access-list extended E3_in
 deny ip any any
interface E1
 ip access-group E1_in in
interface E2
 ip access-group E2_in in
interface E3
 ip access-group E3_in in
";

static NO_CLASH: [Case; 2] = [
    // Two networks of one prefix, each of which is hidden wherever the other one is seen.
    Case {
        files: &[("p", &[HIDDEN_TWINS])],
        text: "networks 3\nzones 3\nrouters 2\npermits 1\nlocal 1\nlines 4\nroutes 0\n",
        held: &[("r1", SHUT_R1), ("r2", SHUT_R2)],
        ..CASE
    },
    // A network inside another, which is hidden where the outer one is permitted: no line shuts it there.
    Case {
        files: &[("p", &[HIDDEN_INNER])],
        text: "networks 3\nzones 3\nrouters 1\npermits 1\nlocal 0\nlines 5\nroutes 0\n",
        held: &[("r1", HIDDEN_INNER_FILE)],
        ..CASE
    },
];

#[test]
fn hidden_networks_clash_with_none(rt: HostRuntime) -> Result<(), Fail> {
    check_all(&rt, rt.alloc(), &NO_CLASH)?;
    Ok(())
}
