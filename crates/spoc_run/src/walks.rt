// Whole runs over several routers, with lists that were worked out by hand.
use crate::cases::{CASE, Case, check_all};
use std::test::Fail;

// ---- one walk is a chain of three routers, the other one router

const RING: &str = "\
network:a = { ip = 10.0.1.0/24; }
network:b = { ip = 10.0.2.0/24; }
network:c = { ip = 10.0.3.0/24; }
network:d = { ip = 10.0.4.0/24; }
router:r1 = {
 managed;
 model = IOS;
 interface:a = { ip = 10.0.1.1; hardware = E1; }
 interface:b = { ip = 10.0.2.1; hardware = E2; }
}
router:r2 = {
 managed;
 model = IOS;
 interface:b = { ip = 10.0.2.2; hardware = E1; }
 interface:c = { ip = 10.0.3.2; hardware = E2; }
}
router:r3 = {
 managed;
 model = IOS;
 interface:c = { ip = 10.0.3.3; hardware = E1; }
 interface:d = { ip = 10.0.4.3; hardware = E2; }
}
router:r4 = {
 managed;
 model = IOS;
 interface:a = { ip = 10.0.1.4; hardware = E1; }
 interface:d = { ip = 10.0.4.4; hardware = E2; }
}
";

// A walk through r1, r2 and r3 has all three interfaces; one from a to b through r1 has one of them.
const THREE_MEMBERS: &str = "\
pathrestriction:x = interface:r1.a, interface:r2.c, interface:r3.d;
service:far = {
 user = network:a;
 permit src = user; dst = network:d; prt = udp 53;
}
service:near = {
 user = network:a;
 permit src = user; dst = network:b; prt = proto 47;
}
";

const THREE_R1: &str = "\
! r1 IOS
ip access-list extended E1_in
 permit 47 10.0.1.0 0.0.0.255 10.0.2.0 0.0.0.255
 deny ip any any
ip access-list extended E2_in
 deny ip any any
interface E1
 ip access-group E1_in in
interface E2
 ip access-group E2_in in
";

const THREE_R2: &str = "\
! r2 IOS
ip access-list extended E1_in
 deny ip any any
ip access-list extended E2_in
 deny ip any any
interface E1
 ip access-group E1_in in
interface E2
 ip access-group E2_in in
";

const THREE_R3: &str = "\
! r3 IOS
ip access-list extended E1_in
 deny ip any any
ip access-list extended E2_in
 deny ip any any
interface E1
 ip access-group E1_in in
interface E2
 ip access-group E2_in in
";

const THREE_R4: &str = "\
! r4 IOS
ip access-list extended E1_in
 permit udp 10.0.1.0 0.0.0.255 10.0.4.0 0.0.0.255 eq 53
 deny ip any any
ip access-list extended E2_in
 permit udp 10.0.4.0 0.0.0.255 eq 53 10.0.1.0 0.0.0.255
 deny ip any any
interface E1
 ip access-group E1_in in
interface E2
 ip access-group E2_in in
";

// The first restriction forbids the walk through r1 and r2 from a to c, and the second one that
// from a to d through r1, r2 and r3; r2's interface at c is a member of both.
const SHARED_MEMBER: &str = "\
pathrestriction:x = interface:r1.a, interface:r2.c;
pathrestriction:y = interface:r2.c, interface:r3.d;
service:s = {
 user = network:c;
 permit src = user; dst = network:a; prt = proto 47;
}
";

const SHARED_R1: &str = "\
! r1 IOS
ip access-list extended E1_in
 deny ip any any
ip access-list extended E2_in
 deny ip any any
interface E1
 ip access-group E1_in in
interface E2
 ip access-group E2_in in
";

const SHARED_R3: &str = "\
! r3 IOS
ip access-list extended E1_in
 permit 47 10.0.3.0 0.0.0.255 10.0.1.0 0.0.0.255
 deny ip any any
ip access-list extended E2_in
 deny ip any any
interface E1
 ip access-group E1_in in
interface E2
 ip access-group E2_in in
";

const SHARED_R4: &str = "\
! r4 IOS
ip access-list extended E1_in
 deny ip any any
ip access-list extended E2_in
 permit 47 10.0.3.0 0.0.0.255 10.0.1.0 0.0.0.255
 deny ip any any
interface E1
 ip access-group E1_in in
interface E2
 ip access-group E2_in in
";

// ---- three interfaces of one router in one zone

const THREE_DOORS: &str = "\
network:n1 = { ip = 10.1.1.0/24; }
network:n2 = { ip = 10.1.2.0/24; }
network:n3 = { ip = 10.1.3.0/24; }
network:n4 = { ip = 10.1.4.0/24; }
router:u = { interface:n1; interface:n2; interface:n3; }
router:r1 = {
 managed;
 model = IOS;
 interface:n1 = { ip = 10.1.1.1; hardware = E1; }
 interface:n2 = { ip = 10.1.2.1; hardware = E2; }
 interface:n3 = { ip = 10.1.3.1; hardware = E3; }
 interface:n4 = { ip = 10.1.4.1; hardware = E4; }
}
service:s1 = {
 user = network:n2;
 permit src = user; dst = network:n4; prt = tcp 80;
}
";

const THREE_DOORS_FILE: &str = "\
! r1 IOS
ip access-list extended E1_in
 permit tcp 10.1.2.0 0.0.0.255 10.1.4.0 0.0.0.255 eq 80
 deny ip any any
ip access-list extended E2_in
 permit tcp 10.1.2.0 0.0.0.255 10.1.4.0 0.0.0.255 eq 80
 deny ip any any
ip access-list extended E3_in
 permit tcp 10.1.2.0 0.0.0.255 10.1.4.0 0.0.0.255 eq 80
 deny ip any any
ip access-list extended E4_in
 permit tcp 10.1.4.0 0.0.0.255 eq 80 10.1.2.0 0.0.0.255 established
 deny ip any any
interface E1
 ip access-group E1_in in
interface E2
 ip access-group E2_in in
interface E3
 ip access-group E3_in in
interface E4
 ip access-group E4_in in
";

// ---- two routers between two zones, one of which keeps state

const TWO_ROUTERS: &str = "\
network:n1 = { ip = 10.1.1.0/24; host:h = { ip = 10.1.1.7; } }
network:n2 = { ip = 10.1.2.0/24; }
router:r1 = {
 managed;
 model = ASA;
 interface:n1 = { ip = 10.1.1.1; hardware = inside; }
 interface:n2 = { ip = 10.1.2.1; hardware = outside; }
}
router:r2 = {
 managed;
 model = IOS;
 interface:n2 = { ip = 10.1.2.2; hardware = E1; }
 interface:n1 = { ip = 10.1.1.2; hardware = E2; }
}
service:s1 = {
 user = host:h;
 permit src = network:n2; dst = user; prt = tcp 22;
}
";

const TWO_R1: &str = "\
! r1 ASA
access-list inside_in extended deny ip any any
access-list outside_in extended permit tcp 10.1.2.0 255.255.255.0 host 10.1.1.7 eq 22
access-list outside_in extended deny ip any any
access-group inside_in in interface inside
access-group outside_in in interface outside
";

const TWO_R2: &str = "\
! r2 IOS
ip access-list extended E1_in
 permit tcp 10.1.2.0 0.0.0.255 host 10.1.1.7 eq 22
 deny ip any any
ip access-list extended E2_in
 permit tcp host 10.1.1.7 eq 22 10.1.2.0 0.0.0.255 established
 deny ip any any
interface E1
 ip access-group E1_in in
interface E2
 ip access-group E2_in in
";

// ---- a router before a loop

const LOOP: &str = "\
network:a = { ip = 10.0.1.0/24; }
network:b = { ip = 10.0.2.0/24; }
network:c = { ip = 10.0.3.0/24; }
router:r1 = {
 managed;
 model = IOS;
 interface:a = { ip = 10.0.1.1; hardware = E1; }
 interface:b = { ip = 10.0.2.1; hardware = E2; }
}
router:r2 = {
 managed;
 model = IOS;
 interface:b = { ip = 10.0.2.2; hardware = E1; }
 interface:c = { ip = 10.0.3.2; hardware = E2; }
}
router:r3 = {
 managed;
 model = IOS;
 interface:a = { ip = 10.0.1.3; hardware = E1; }
 interface:c = { ip = 10.0.3.3; hardware = E2; }
}
network:s = { ip = 10.0.0.0/24; }
router:r0 = {
 managed;
 model = IOS;
 routing = dynamic;
 interface:s = { ip = 10.0.0.1; hardware = E1; }
 interface:a = { ip = 10.0.1.9; hardware = E2; }
}
service:s1 = {
 user = network:s;
 permit src = user; dst = network:c; prt = tcp 80;
}
";

const LOOP_R0: &str = "\
! r0 IOS
ip access-list extended E1_in
 permit tcp 10.0.0.0 0.0.0.255 10.0.3.0 0.0.0.255 eq 80
 deny ip any any
ip access-list extended E2_in
 permit tcp 10.0.3.0 0.0.0.255 eq 80 10.0.0.0 0.0.0.255 established
 deny ip any any
interface E1
 ip access-group E1_in in
interface E2
 ip access-group E2_in in
";

const LOOP_R1: &str = "\
! r1 IOS
ip access-list extended E1_in
 permit tcp 10.0.0.0 0.0.0.255 10.0.3.0 0.0.0.255 eq 80
 deny ip any any
ip access-list extended E2_in
 permit tcp 10.0.3.0 0.0.0.255 eq 80 10.0.0.0 0.0.0.255 established
 deny ip any any
interface E1
 ip access-group E1_in in
interface E2
 ip access-group E2_in in
";

const LOOP_R2: &str = "\
! r2 IOS
ip access-list extended E1_in
 permit tcp 10.0.0.0 0.0.0.255 10.0.3.0 0.0.0.255 eq 80
 deny ip any any
ip access-list extended E2_in
 permit tcp 10.0.3.0 0.0.0.255 eq 80 10.0.0.0 0.0.0.255 established
 deny ip any any
interface E1
 ip access-group E1_in in
interface E2
 ip access-group E2_in in
";

const LOOP_R3: &str = "\
! r3 IOS
ip access-list extended E1_in
 permit tcp 10.0.0.0 0.0.0.255 10.0.3.0 0.0.0.255 eq 80
 deny ip any any
ip access-list extended E2_in
 permit tcp 10.0.3.0 0.0.0.255 eq 80 10.0.0.0 0.0.0.255 established
 deny ip any any
interface E1
 ip access-group E1_in in
interface E2
 ip access-group E2_in in
";

static THREE_ROUTERS: [Case; 1] = [
    // A restriction over three routers.
    Case {
        files: &[("p", &[RING, THREE_MEMBERS])],
        text: "networks 4\nzones 4\nrouters 4\npermits 2\nlocal 0\nlines 11\nroutes 0\n",
        held: &[
            ("r1", THREE_R1),
            ("r2", THREE_R2),
            ("r3", THREE_R3),
            ("r4", THREE_R4),
        ],
        ..CASE
    },
];

#[test]
fn a_restriction_over_three_routers(rt: HostRuntime) -> Result<(), Fail> {
    check_all(&rt, rt.alloc(), &THREE_ROUTERS)?;
    Ok(())
}

static SHARED: [Case; 1] = [
    // Two restrictions that share a member.
    Case {
        files: &[("p", &[RING, SHARED_MEMBER])],
        text: "networks 4\nzones 4\nrouters 4\npermits 1\nlocal 0\nlines 10\nroutes 0\n",
        held: &[
            ("r1", SHARED_R1),
            ("r2", THREE_R2),
            ("r3", SHARED_R3),
            ("r4", SHARED_R4),
        ],
        ..CASE
    },
];

#[test]
fn two_restrictions_that_share_a_member(rt: HostRuntime) -> Result<(), Fail> {
    check_all(&rt, rt.alloc(), &SHARED)?;
    Ok(())
}

static TWO_ZONES: [Case; 2] = [
    // Three interfaces in one zone.
    Case {
        files: &[("p", &[THREE_DOORS])],
        text: "networks 4\nzones 2\nrouters 1\npermits 1\nlocal 0\nlines 8\nroutes 0\n",
        held: &[("r1", THREE_DOORS_FILE)],
        ..CASE
    },
    // Two routers between two zones.
    Case {
        files: &[("p", &[TWO_ROUTERS])],
        text: "networks 2\nzones 2\nrouters 2\npermits 1\nlocal 0\nlines 7\nroutes 0\n",
        held: &[("r1", TWO_R1), ("r2", TWO_R2)],
        ..CASE
    },
];

#[test]
fn several_ways_between_two_zones(rt: HostRuntime) -> Result<(), Fail> {
    check_all(&rt, rt.alloc(), &TWO_ZONES)?;
    Ok(())
}

static ROUND: [Case; 1] = [
    // Both ways round a loop.
    Case {
        files: &[("p", &[LOOP])],
        text: "networks 4\nzones 4\nrouters 4\npermits 1\nlocal 0\nlines 16\nroutes 0\n",
        held: &[
            ("r1", LOOP_R1),
            ("r2", LOOP_R2),
            ("r3", LOOP_R3),
            ("r0", LOOP_R0),
        ],
        ..CASE
    },
];

#[test]
fn both_ways_round_a_loop(rt: HostRuntime) -> Result<(), Fail> {
    check_all(&rt, rt.alloc(), &ROUND)?;
    Ok(())
}
