// Whole runs over policies with networks inside others, with lists that were worked out by hand: the deeper pair first, and closed where an outer permit reaches
// into it.
use crate::cases::{CASE, Case, check_all};
use std::test::Fail;

// ---- a dmz inside the internet's prefix

const DMZ: &str = "\
network:n1 = { ip = 10.1.1.0/24; }
network:dmz = { ip = 192.0.2.0/24; }
network:internet = { ip = 0.0.0.0/0; }
router:r1 = {
 managed;
 model = IOS;
 interface:n1 = { ip = 10.1.1.1; hardware = E1; }
 interface:dmz = { ip = 192.0.2.1; hardware = E2; }
 interface:internet = { ip = 198.51.100.1; hardware = E3; }
}
service:s1 = {
 user = network:n1;
 permit src = user; dst = network:internet; prt = tcp 80;
}
";

const DMZ_FILE: &str = "\
! r1 IOS
ip access-list extended E1_in
 deny ip 10.1.1.0 0.0.0.255 192.0.2.0 0.0.0.255
 permit tcp 10.1.1.0 0.0.0.255 any eq 80
 deny ip any any
ip access-list extended E2_in
 deny ip any any
ip access-list extended E3_in
 permit tcp any eq 80 10.1.1.0 0.0.0.255 established
 deny ip any any
interface E1
 ip access-group E1_in in
interface E2
 ip access-group E2_in in
interface E3
 ip access-group E3_in in
";

// ---- a network inside one of its own zone

const OWN_ZONE: &str = "\
network:n1 = { ip = 10.1.1.0/24; }
network:n2 = { ip = 10.1.2.0/24; }
router:r1 = {
 managed;
 model = IOS;
 interface:n1 = { ip = 10.1.1.1; hardware = E1; }
 interface:n2 = { ip = 10.1.2.1; hardware = E2; }
}
service:s1 = {
 user = network:n1;
 permit src = user; dst = network:n2; prt = tcp 80;
}
network:sub = { ip = 10.1.2.128/25; }
router:u = { interface:n2 = { ip = 10.1.2.2; } interface:sub; }
";

const OWN_ZONE_FILE: &str = "\
! r1 IOS
ip access-list extended E1_in
 permit tcp 10.1.1.0 0.0.0.255 10.1.2.0 0.0.0.255 eq 80
 deny ip any any
ip access-list extended E2_in
 permit tcp 10.1.2.0 0.0.0.255 eq 80 10.1.1.0 0.0.0.255 established
 deny ip any any
interface E1
 ip access-group E1_in in
interface E2
 ip access-group E2_in in
";

const CROSSING: &str = "\
network:n1 = { ip = 10.1.1.0/24; }
network:n2 = { ip = 10.1.2.0/24; host:h = { range = 10.1.2.100-10.1.2.150; } }
network:sub = { ip = 10.1.2.128/25; }
router:r1 = {
 managed;
 model = IOS;
 interface:n1 = { ip = 10.1.1.1; hardware = E1; }
 interface:n2 = { ip = 10.1.2.1; hardware = E2; }
 interface:sub = { ip = 10.1.2.129; hardware = E3; }
}
";

const WITHIN: &str = "\
network:n1 = { ip = 10.1.1.0/24; }
network:n2 = { ip = 10.1.2.0/24; host:h = { ip = 10.1.2.200; } }
router:r1 = {
 managed;
 model = IOS;
 interface:n1 = { ip = 10.1.1.1; hardware = E1; }
 interface:n2 = { ip = 10.1.2.1; hardware = E2; }
}
service:s1 = {
 user = network:n1;
 permit src = user; dst = network:n2; prt = tcp 80;
}
network:sub = { ip = 10.1.2.128/25; }
router:u = { interface:n2 = { ip = 10.1.2.2; } interface:sub; }
";

// ---- three levels

const LEVELS: &str = "\
network:n1 = { ip = 192.168.1.0/24; }
network:big = { ip = 10.0.0.0/8; }
network:internet = { ip = 0.0.0.0/0; }
network:small = { ip = 10.1.0.0/16; }
router:r1 = {
 managed;
 model = IOS;
 interface:n1 = { ip = 192.168.1.1; hardware = E1; }
 interface:big = { ip = 10.0.0.1; hardware = E2; }
 interface:internet = { ip = 198.51.100.1; hardware = E3; }
 interface:small = { ip = 10.1.0.1; hardware = E4; }
}
service:web = {
 user = network:n1;
 permit src = user; dst = network:internet; prt = tcp 80;
}
service:names = {
 user = network:n1;
 permit src = user; dst = network:big; prt = udp 53;
}
";

const LEVELS_FILE: &str = "\
! r1 IOS
ip access-list extended E1_in
 deny ip 192.168.1.0 0.0.0.255 10.1.0.0 0.0.255.255
 permit udp 192.168.1.0 0.0.0.255 10.0.0.0 0.255.255.255 eq 53
 deny ip 192.168.1.0 0.0.0.255 10.0.0.0 0.255.255.255
 permit tcp 192.168.1.0 0.0.0.255 any eq 80
 deny ip any any
ip access-list extended E2_in
 permit udp 10.0.0.0 0.255.255.255 eq 53 192.168.1.0 0.0.0.255
 deny ip any any
ip access-list extended E3_in
 permit tcp any eq 80 192.168.1.0 0.0.0.255 established
 deny ip any any
ip access-list extended E4_in
 deny ip any any
interface E1
 ip access-group E1_in in
interface E2
 ip access-group E2_in in
interface E3
 ip access-group E3_in in
interface E4
 ip access-group E4_in in
";

// ---- networks inside both ends

const BOTH_ENDS: &str = "\
network:big = { ip = 10.0.0.0/8; }
network:small = { ip = 10.1.0.0/16; }
network:link = { ip = 172.16.0.0/30; }
network:dmz = { ip = 192.0.2.0/24; }
network:internet = { ip = 0.0.0.0/0; }
router:r1 = {
 managed;
 model = IOS;
 interface:link = { ip = 172.16.0.1; hardware = E1; }
 interface:dmz = { ip = 192.0.2.1; hardware = E2; }
 interface:internet = { ip = 198.51.100.1; hardware = E3; }
}
router:r2 = {
 managed;
 model = IOS;
 interface:big = { ip = 10.0.0.1; hardware = E1; }
 interface:small = { ip = 10.1.0.1; hardware = E2; }
 interface:link = { ip = 172.16.0.2; hardware = E3; }
}
service:s1 = {
 user = network:big;
 permit src = user; dst = network:internet; prt = tcp 80;
}
";

const BOTH_ENDS_R1: &str = "\
! r1 IOS
ip access-list extended E1_in
 deny ip 10.0.0.0 0.255.255.255 192.0.2.0 0.0.0.255
 deny ip 10.1.0.0 0.0.255.255 any
 permit tcp 10.0.0.0 0.255.255.255 any eq 80
 deny ip any any
ip access-list extended E2_in
 deny ip any any
ip access-list extended E3_in
 deny ip any 10.1.0.0 0.0.255.255
 permit tcp any eq 80 10.0.0.0 0.255.255.255 established
 deny ip any any
interface E1
 ip access-group E1_in in
interface E2
 ip access-group E2_in in
interface E3
 ip access-group E3_in in
";

const BOTH_ENDS_R2: &str = "\
! r2 IOS
ip access-list extended E1_in
 deny ip 10.0.0.0 0.255.255.255 172.16.0.0 0.0.0.3
 deny ip 10.0.0.0 0.255.255.255 192.0.2.0 0.0.0.255
 deny ip 10.0.0.0 0.255.255.255 10.1.0.0 0.0.255.255
 permit tcp 10.0.0.0 0.255.255.255 any eq 80
 deny ip any any
ip access-list extended E2_in
 deny ip any any
ip access-list extended E3_in
 deny ip 172.16.0.0 0.0.0.3 10.0.0.0 0.255.255.255
 deny ip 192.0.2.0 0.0.0.255 10.0.0.0 0.255.255.255
 deny ip any 10.1.0.0 0.0.255.255
 permit tcp any eq 80 10.0.0.0 0.255.255.255 established
 deny ip any any
interface E1
 ip access-group E1_in in
interface E2
 ip access-group E2_in in
interface E3
 ip access-group E3_in in
";

// ---- one pair, shut at one interface and open at another

const ONE_WAY_SHUT: &str = "\
network:n1 = { ip = 10.1.1.0/24; }
network:link = { ip = 172.16.0.0/30; }
network:dmz = { ip = 192.0.2.0/24; }
network:internet = { ip = 0.0.0.0/0; }
router:r1 = {
 managed;
 model = IOS;
 interface:n1 = { ip = 10.1.1.1; hardware = E1; }
 interface:link = { ip = 172.16.0.1; hardware = E2; }
 interface:internet = { ip = 198.51.100.1; hardware = E3; }
}
router:r2 = {
 managed;
 model = IOS;
 interface:link = { ip = 172.16.0.2; hardware = E1; }
 interface:dmz = { ip = 192.0.2.1; hardware = E2; }
}
service:web = {
 user = network:n1;
 permit src = user; dst = network:internet; prt = tcp 80;
}
service:names = {
 user = network:n1;
 permit src = user; dst = network:dmz; prt = udp 53;
}
";

const ONE_WAY_SHUT_R1: &str = "\
! r1 IOS
ip access-list extended E1_in
 deny ip 10.1.1.0 0.0.0.255 172.16.0.0 0.0.0.3
 permit udp 10.1.1.0 0.0.0.255 192.0.2.0 0.0.0.255 eq 53
 deny ip 10.1.1.0 0.0.0.255 192.0.2.0 0.0.0.255
 permit tcp 10.1.1.0 0.0.0.255 any eq 80
 deny ip any any
ip access-list extended E2_in
 permit udp 192.0.2.0 0.0.0.255 eq 53 10.1.1.0 0.0.0.255
 deny ip any any
ip access-list extended E3_in
 permit tcp any eq 80 10.1.1.0 0.0.0.255 established
 deny ip any any
interface E1
 ip access-group E1_in in
interface E2
 ip access-group E2_in in
interface E3
 ip access-group E3_in in
";

const ONE_WAY_SHUT_R2: &str = "\
! r2 IOS
ip access-list extended E1_in
 permit udp 10.1.1.0 0.0.0.255 192.0.2.0 0.0.0.255 eq 53
 deny ip any any
ip access-list extended E2_in
 permit udp 192.0.2.0 0.0.0.255 eq 53 10.1.1.0 0.0.0.255
 deny ip any any
interface E1
 ip access-group E1_in in
interface E2
 ip access-group E2_in in
";

// ---- networks inside one behind two routers that aren't managed

const BEHIND_TWO: &str = "\
network:n1 = { ip = 10.1.1.0/24; }
network:t = { ip = 10.9.0.0/24; }
network:big = { ip = 10.2.0.0/16; }
network:sub1 = { ip = 10.2.1.0/24; }
network:sub2 = { ip = 10.2.2.0/24; }
router:r1 = {
 managed;
 model = IOS;
 interface:n1 = { ip = 10.1.1.1; hardware = E1; }
 interface:t = { ip = 10.9.0.1; hardware = E2; }
}
router:u1 = { interface:t = { ip = 10.9.0.2; } interface:big; interface:sub1; }
router:u2 = { interface:t = { ip = 10.9.0.3; } interface:sub2; }
";

const TO_BIG: &str = "\
service:s1 = {
 user = network:n1;
 permit src = user; dst = network:big; prt = tcp 80;
}
";

const TO_A_SET: &str = "\
service:s1 = {
 user = network:n1;
 permit src = user; dst = any:[ip = 10.2.0.0/16 & network:t] &! network:sub1; prt = tcp 80;
}
";

const TO_BIG_FILE: &str = "\
! r1 IOS
ip access-list extended E1_in
 permit tcp 10.1.1.0 0.0.0.255 10.2.0.0 0.0.255.255 eq 80
 deny ip any any
ip access-list extended E2_in
 permit tcp 10.2.0.0 0.0.255.255 eq 80 10.1.1.0 0.0.0.255 established
 deny ip any any
interface E1
 ip access-group E1_in in
interface E2
 ip access-group E2_in in
";

const TO_A_SET_FILE: &str = "\
! r1 IOS
ip access-list extended E1_in
 permit tcp 10.1.1.0 0.0.0.255 10.2.0.0 0.0.255.255 eq 80
 deny ip any any
ip access-list extended E2_in
 permit tcp 10.2.0.0 0.0.255.255 eq 80 10.1.1.0 0.0.0.255 established
 deny ip any any
interface E1
 ip access-group E1_in in
interface E2
 ip access-group E2_in in
";

static ONE_INSIDE: [Case; 2] = [
    // A dmz in the internet is shut.
    Case {
        files: &[("p", &[DMZ])],
        text: "networks 3\nzones 3\nrouters 1\npermits 1\nlocal 0\nlines 6\nroutes 0\n",
        held: &[("r1", DMZ_FILE)],
        ..CASE
    },
    // A network inside one of its zone is permitted too: the service is for both, so that nothing has to be shut.
    Case {
        files: &[("p", &[OWN_ZONE])],
        text: "networks 3\nzones 2\nrouters 1\npermits 2\nlocal 0\nlines 4\nroutes 0\n",
        held: &[("r1", OWN_ZONE_FILE)],
        ..CASE
    },
];

#[test]
fn a_network_inside_another(rt: HostRuntime) -> Result<(), Fail> {
    check_all(&rt, rt.alloc(), &ONE_INSIDE)?;
    Ok(())
}

static SHADOWED: [Case; 2] = [
    // A host that reaches into a nested network: addresses of a host that lie at a network inside its own are no host's.
    Case {
        files: &[("p", &[CROSSING])],
        status: 1,
        text: "fault HostShadowed host:h network:sub zone:n1\n",
        ..CASE
    },
    // A host inside a nested network.
    Case {
        files: &[("p", &[WITHIN])],
        status: 1,
        text: "fault HostShadowed host:h network:sub zone:n1\n",
        ..CASE
    },
];

#[test]
fn hosts_inside_a_nested_network_are_refused(rt: HostRuntime) -> Result<(), Fail> {
    check_all(&rt, rt.alloc(), &SHADOWED)?;
    Ok(())
}

static DEEP: [Case; 1] = [
    // Three levels are shut from the deepest on.
    Case {
        files: &[("p", &[LEVELS])],
        text: "networks 4\nzones 4\nrouters 1\npermits 2\nlocal 0\nlines 10\nroutes 0\n",
        held: &[("r1", LEVELS_FILE)],
        ..CASE
    },
];

#[test]
fn three_levels_are_shut_from_the_deepest_on(rt: HostRuntime) -> Result<(), Fail> {
    check_all(&rt, rt.alloc(), &DEEP)?;
    Ok(())
}

static BOTH: [Case; 1] = [
    // Networks inside both ends are shut: at r1's interface at the link both ends have networks inside; at r2's first interface its own small network is a destination, too.
    Case {
        files: &[("p", &[BOTH_ENDS])],
        text: "networks 5\nzones 5\nrouters 2\npermits 1\nlocal 0\nlines 19\nroutes 0\n",
        held: &[("r1", BOTH_ENDS_R1), ("r2", BOTH_ENDS_R2)],
        ..CASE
    },
];

#[test]
fn networks_inside_both_ends_are_shut(rt: HostRuntime) -> Result<(), Fail> {
    check_all(&rt, rt.alloc(), &BOTH)?;
    Ok(())
}

static PASSING: [Case; 1] = [
    // A pair is shut only where the outer one passes: no walk to the internet passes r2, so that nothing reaches into the dmz there.
    Case {
        files: &[("p", &[ONE_WAY_SHUT])],
        text: "networks 4\nzones 4\nrouters 2\npermits 2\nlocal 0\nlines 13\nroutes 0\n",
        held: &[("r1", ONE_WAY_SHUT_R1), ("r2", ONE_WAY_SHUT_R2)],
        ..CASE
    },
];

#[test]
fn a_pair_is_shut_only_where_the_outer_one_passes(rt: HostRuntime) -> Result<(), Fail> {
    check_all(&rt, rt.alloc(), &PASSING)?;
    Ok(())
}

static FOR_THOSE_INSIDE: [Case; 2] = [
    // A service to a network is for those inside.
    Case {
        files: &[("p", &[BEHIND_TWO, TO_BIG])],
        text: "networks 5\nzones 2\nrouters 1\npermits 3\nlocal 0\nlines 4\nroutes 0\n",
        held: &[("r1", TO_BIG_FILE)],
        ..CASE
    },
    // A set with one network taken out: the set has `big` and `sub2`; `big` is for `sub1` and `sub2`, too, so that `sub2` comes twice.
    Case {
        files: &[("p", &[BEHIND_TWO, TO_A_SET])],
        text: "networks 5\nzones 2\nrouters 1\npermits 4\nlocal 0\nlines 4\nroutes 0\n",
        held: &[("r1", TO_A_SET_FILE)],
        ..CASE
    },
];

#[test]
fn a_service_to_a_network_is_for_those_inside(rt: HostRuntime) -> Result<(), Fail> {
    check_all(&rt, rt.alloc(), &FOR_THOSE_INSIDE)?;
    Ok(())
}
