// Whole runs over policies with rules that deny, with lists that were worked out by hand.
use crate::cases::{CASE, Case, check_all};
use crate::rows::{NETS, ONE_ROUTER, WEB_FILE, WEB_SERVICE};
use std::test::Fail;

// ---- a host

const NETS_WITH_HOST: &str = "\
network:n1 = { ip = 10.1.1.0/24; }
network:n2 = { ip = 10.1.2.0/24; host:h = { ip = 10.1.2.10; } }
";

const WITHOUT_A_HOST: &str = "\
service:s1 = {
 user = network:n1;
 deny src = user; dst = host:h; prt = tcp 80;
 permit src = user; dst = network:n2; prt = tcp 80;
}
";

const WITHOUT_A_HOST_AT_ALL: &str = "\
service:s1 = {
 user = network:n1;
 permit src = user; dst = network:n2; prt = tcp 80;
 deny src = user; dst = host:h; prt = ip;
}
";

const WITHOUT_A_HOST_FILE: &str = "\
! r1 IOS
ip access-list extended E1_in
 permit tcp 10.1.1.0 0.0.0.255 10.1.2.0 0.0.0.7 eq 80
 permit tcp 10.1.1.0 0.0.0.255 10.1.2.8 0.0.0.1 eq 80
 permit tcp 10.1.1.0 0.0.0.255 host 10.1.2.11 eq 80
 permit tcp 10.1.1.0 0.0.0.255 10.1.2.12 0.0.0.3 eq 80
 permit tcp 10.1.1.0 0.0.0.255 10.1.2.16 0.0.0.15 eq 80
 permit tcp 10.1.1.0 0.0.0.255 10.1.2.32 0.0.0.31 eq 80
 permit tcp 10.1.1.0 0.0.0.255 10.1.2.64 0.0.0.63 eq 80
 permit tcp 10.1.1.0 0.0.0.255 10.1.2.128 0.0.0.127 eq 80
 deny ip any any
ip access-list extended E2_in
 permit tcp 10.1.2.0 0.0.0.7 eq 80 10.1.1.0 0.0.0.255 established
 permit tcp 10.1.2.8 0.0.0.1 eq 80 10.1.1.0 0.0.0.255 established
 permit tcp host 10.1.2.11 eq 80 10.1.1.0 0.0.0.255 established
 permit tcp 10.1.2.12 0.0.0.3 eq 80 10.1.1.0 0.0.0.255 established
 permit tcp 10.1.2.16 0.0.0.15 eq 80 10.1.1.0 0.0.0.255 established
 permit tcp 10.1.2.32 0.0.0.31 eq 80 10.1.1.0 0.0.0.255 established
 permit tcp 10.1.2.64 0.0.0.63 eq 80 10.1.1.0 0.0.0.255 established
 permit tcp 10.1.2.128 0.0.0.127 eq 80 10.1.1.0 0.0.0.255 established
 deny ip any any
interface E1
 ip access-group E1_in in
interface E2
 ip access-group E2_in in
";

static A_HOST: [Case; 2] = [
    // A host, before its permit: the network's other addresses are left, in two pieces.
    Case {
        files: &[("p", &[NETS_WITH_HOST, ONE_ROUTER, WITHOUT_A_HOST])],
        text: "networks 2\nzones 2\nrouters 1\npermits 2\nlocal 0\nlines 18\nroutes 0\n",
        held: &[("r1", WITHOUT_A_HOST_FILE)],
        ..CASE
    },
    // All of it, behind its permit.
    Case {
        files: &[("p", &[NETS_WITH_HOST, ONE_ROUTER, WITHOUT_A_HOST_AT_ALL])],
        text: "networks 2\nzones 2\nrouters 1\npermits 2\nlocal 0\nlines 18\nroutes 0\n",
        held: &[("r1", WITHOUT_A_HOST_FILE)],
        ..CASE
    },
];

#[test]
fn a_host_is_denied(rt: HostRuntime) -> Result<(), Fail> {
    check_all(&rt, rt.alloc(), &A_HOST)?;
    Ok(())
}

// ---- ports, and all of a permit

const WITHOUT_PORTS: &str = "\
service:s1 = {
 user = network:n1;
 permit src = user; dst = network:n2; prt = tcp 1-100;
 deny src = user; dst = network:n2; prt = tcp 80-90;
}
";

const WITHOUT_PORTS_FILE: &str = "\
! r1 IOS
ip access-list extended E1_in
 permit tcp 10.1.1.0 0.0.0.255 10.1.2.0 0.0.0.255 range 1 79
 permit tcp 10.1.1.0 0.0.0.255 10.1.2.0 0.0.0.255 range 91 100
 deny ip any any
ip access-list extended E2_in
 permit tcp 10.1.2.0 0.0.0.255 range 1 79 10.1.1.0 0.0.0.255 established
 permit tcp 10.1.2.0 0.0.0.255 range 91 100 10.1.1.0 0.0.0.255 established
 deny ip any any
interface E1
 ip access-group E1_in in
interface E2
 ip access-group E2_in in
";

const ELSEWHERE: &str = "\
service:s2 = {
 user = network:n1;
 deny src = user; dst = network:n2; prt = tcp 80;
}
";

const SHUT_FILE: &str = "\
! r1 IOS
ip access-list extended E1_in
 deny ip any any
ip access-list extended E2_in
 deny ip any any
interface E1
 ip access-group E1_in in
interface E2
 ip access-group E2_in in
";

const REPLIES_DENIED: &str = "\
service:s2 = {
 user = network:n2;
 deny src = user; dst = network:n1; prt = ip;
}
";

static PORTS: [Case; 3] = [
    // Some ports, behind their permit.
    Case {
        files: &[("p", &[NETS, ONE_ROUTER, WITHOUT_PORTS])],
        text: "networks 2\nzones 2\nrouters 1\npermits 2\nlocal 0\nlines 6\nroutes 0\n",
        held: &[("r1", WITHOUT_PORTS_FILE)],
        ..CASE
    },
    // All of a permit, in another service.
    Case {
        files: &[("p", &[NETS, ONE_ROUTER, WEB_SERVICE, ELSEWHERE])],
        text: "networks 2\nzones 2\nrouters 1\npermits 0\nlocal 0\nlines 2\nroutes 0\n",
        held: &[("r1", SHUT_FILE)],
        ..CASE
    },
    // The replies' own direction: they pass all the same.
    Case {
        files: &[("p", &[NETS, ONE_ROUTER, WEB_SERVICE, REPLIES_DENIED])],
        text: "networks 2\nzones 2\nrouters 1\npermits 1\nlocal 0\nlines 4\nroutes 0\n",
        held: &[("r1", WEB_FILE)],
        ..CASE
    },
];

#[test]
fn ports_are_denied(rt: HostRuntime) -> Result<(), Fail> {
    check_all(&rt, rt.alloc(), &PORTS)?;
    Ok(())
}

// ---- a network inside another, and a group

const BEHIND_IT: &str = "\
network:sub = { ip = 10.1.2.128/25; }
router:u = { interface:n2 = { ip = 10.1.2.2; } interface:sub; }
service:s1 = {
 user = network:n1;
 deny src = user; dst = network:sub; prt = tcp 80;
 permit src = user; dst = network:n2; prt = tcp 80;
}
";

const BEHIND_IT_FILE: &str = "\
! r1 IOS
ip access-list extended E1_in
 deny ip 10.1.1.0 0.0.0.255 10.1.2.128 0.0.0.127
 permit tcp 10.1.1.0 0.0.0.255 10.1.2.0 0.0.0.255 eq 80
 deny ip any any
ip access-list extended E2_in
 deny ip 10.1.2.128 0.0.0.127 10.1.1.0 0.0.0.255
 permit tcp 10.1.2.0 0.0.0.255 eq 80 10.1.1.0 0.0.0.255 established
 deny ip any any
interface E1
 ip access-group E1_in in
interface E2
 ip access-group E2_in in
";

const HOSTS: &str = "\
network:n1 = {
 ip = 10.1.1.0/24;
 host:all = { range = 10.1.1.5-10.1.1.10; }
 host:a = { ip = 10.1.1.7; }
 host:b = { ip = 10.1.1.10; }
}
network:n2 = { ip = 10.1.2.0/24; }
";

const WITHOUT_A_GROUP: &str = "\
group:g = host:a, host:b;
service:s1 = {
 user = host:all;
 permit src = user; dst = network:n2; prt = tcp 80;
}
service:s2 = {
 user = group:g;
 deny src = user; dst = network:n2; prt = tcp 80;
}
";

const WITHOUT_A_GROUP_FILE: &str = "\
! r1 IOS
ip access-list extended E1_in
 permit tcp host 10.1.1.5 10.1.2.0 0.0.0.255 eq 80
 permit tcp host 10.1.1.6 10.1.2.0 0.0.0.255 eq 80
 permit tcp 10.1.1.8 0.0.0.1 10.1.2.0 0.0.0.255 eq 80
 deny ip any any
ip access-list extended E2_in
 permit tcp 10.1.2.0 0.0.0.255 eq 80 host 10.1.1.5 established
 permit tcp 10.1.2.0 0.0.0.255 eq 80 host 10.1.1.6 established
 permit tcp 10.1.2.0 0.0.0.255 eq 80 10.1.1.8 0.0.0.1 established
 deny ip any any
interface E1
 ip access-group E1_in in
interface E2
 ip access-group E2_in in
";

static NETWORKS: [Case; 2] = [
    // A network inside the permitted one is shut, although the outer permit would reach into it.
    Case {
        files: &[("p", &[NETS, ONE_ROUTER, BEHIND_IT])],
        text: "networks 3\nzones 2\nrouters 1\npermits 1\nlocal 0\nlines 6\nroutes 0\n",
        held: &[("r1", BEHIND_IT_FILE)],
        ..CASE
    },
    // Two hosts of a group, out of a range: one inside it, and one at its end.
    Case {
        files: &[("p", &[HOSTS, ONE_ROUTER, WITHOUT_A_GROUP])],
        text: "networks 2\nzones 2\nrouters 1\npermits 2\nlocal 0\nlines 8\nroutes 0\n",
        held: &[("r1", WITHOUT_A_GROUP_FILE)],
        ..CASE
    },
];

#[test]
fn networks_and_groups_are_denied(rt: HostRuntime) -> Result<(), Fail> {
    check_all(&rt, rt.alloc(), &NETWORKS)?;
    Ok(())
}

// ---- refusals

const MANAGED_END_DENIED: &str = "\
service:s1 = {
 user = network:n1;
 permit src = user; dst = network:n2; prt = tcp 80;
 deny src = user; dst = interface:r1.n2; prt = tcp 80;
}
";

const NO_USER_DENIED: &str = "\
service:s1 = {
 user = network:n1;
 permit src = user; dst = network:n2; prt = tcp 80;
 deny src = network:n1; dst = network:n2; prt = tcp 80;
}
";

static REFUSED: [Case; 2] = [
    // A managed router's interface is no end of a rule that denies either.
    Case {
        files: &[("p", &[NETS, ONE_ROUTER, MANAGED_END_DENIED])],
        status: 1,
        text: "fault ManagedEnd service:s1 interface:r1.n2\n",
        ..CASE
    },
    // The user stands in each rule.
    Case {
        files: &[("p", &[NETS, ONE_ROUTER, NO_USER_DENIED])],
        status: 1,
        text: "fault Shape S14 service:s1\n",
        ..CASE
    },
];

#[test]
fn denials_are_refused(rt: HostRuntime) -> Result<(), Fail> {
    check_all(&rt, rt.alloc(), &REFUSED)?;
    Ok(())
}

// ---- many pieces

const WITHOUT_A_TYPE: &str = "\
service:s1 = {
 user = network:n1;
 permit src = user; dst = network:n2; prt = icmp;
 deny src = user; dst = network:n2; prt = icmp 8;
}
";

const WITHOUT_A_PORT: &str = "\
service:s1 = {
 user = network:n1;
 permit src = user; dst = network:n2; prt = ip;
 deny src = user; dst = network:n2; prt = tcp 80;
}
";

static PIECES: [Case; 2] = [
    // One type of ICMP: each of the other 255 is left.
    Case {
        files: &[("p", &[NETS, ONE_ROUTER, WITHOUT_A_TYPE])],
        text: "networks 2\nzones 2\nrouters 1\npermits 255\nlocal 0\nlines 257\nroutes 0\n",
        only_text: true,
        ..CASE
    },
    // One port of everything: 254 protocols are left, and TCP in two pieces; TCP and UDP have replies.
    Case {
        files: &[("p", &[NETS, ONE_ROUTER, WITHOUT_A_PORT])],
        text: "networks 2\nzones 2\nrouters 1\npermits 256\nlocal 0\nlines 261\nroutes 0\n",
        only_text: true,
        ..CASE
    },
];

#[test]
fn denials_leave_many_pieces(rt: HostRuntime) -> Result<(), Fail> {
    check_all(&rt, rt.alloc(), &PIECES)?;
    Ok(())
}

// ---- more than the limit

const SIXTEEN_HOSTS: &str = "\
network:n1 = {
 ip = 10.1.1.0/24;
 host:a0 = { ip = 10.1.1.16; }
 host:a1 = { ip = 10.1.1.17; }
 host:a2 = { ip = 10.1.1.18; }
 host:a3 = { ip = 10.1.1.19; }
 host:a4 = { ip = 10.1.1.20; }
 host:a5 = { ip = 10.1.1.21; }
 host:a6 = { ip = 10.1.1.22; }
 host:a7 = { ip = 10.1.1.23; }
 host:a8 = { ip = 10.1.1.24; }
 host:a9 = { ip = 10.1.1.25; }
 host:a10 = { ip = 10.1.1.26; }
 host:a11 = { ip = 10.1.1.27; }
 host:a12 = { ip = 10.1.1.28; }
 host:a13 = { ip = 10.1.1.29; }
 host:a14 = { ip = 10.1.1.30; }
 host:a15 = { ip = 10.1.1.31; }
}
network:n2 = {
 ip = 10.1.2.0/24;
 host:b0 = { ip = 10.1.2.16; }
 host:b1 = { ip = 10.1.2.17; }
 host:b2 = { ip = 10.1.2.18; }
 host:b3 = { ip = 10.1.2.19; }
 host:b4 = { ip = 10.1.2.20; }
 host:b5 = { ip = 10.1.2.21; }
 host:b6 = { ip = 10.1.2.22; }
 host:b7 = { ip = 10.1.2.23; }
 host:b8 = { ip = 10.1.2.24; }
 host:b9 = { ip = 10.1.2.25; }
 host:b10 = { ip = 10.1.2.26; }
 host:b11 = { ip = 10.1.2.27; }
 host:b12 = { ip = 10.1.2.28; }
 host:b13 = { ip = 10.1.2.29; }
 host:b14 = { ip = 10.1.2.30; }
 host:b15 = { ip = 10.1.2.31; }
}
group:g1 =
 host:a0, host:a1, host:a2, host:a3, host:a4, host:a5, host:a6, host:a7, host:a8, host:a9, host:a10, host:a11, host:a12, host:a13, host:a14, host:a15;
group:g2 =
 host:b0, host:b1, host:b2, host:b3, host:b4, host:b5, host:b6, host:b7, host:b8, host:b9, host:b10, host:b11, host:b12, host:b13, host:b14, host:b15;
";

// Each one has its predecessor four times: the last one has 16,384 protocols.
const FOURFOLD: &str = "\
protocolgroup:p1 = tcp 1, tcp 2, tcp 3, tcp 4;
protocolgroup:p2 = protocolgroup:p1, protocolgroup:p1, protocolgroup:p1, protocolgroup:p1;
protocolgroup:p3 = protocolgroup:p2, protocolgroup:p2, protocolgroup:p2, protocolgroup:p2;
protocolgroup:p4 = protocolgroup:p3, protocolgroup:p3, protocolgroup:p3, protocolgroup:p3;
protocolgroup:p5 = protocolgroup:p4, protocolgroup:p4, protocolgroup:p4, protocolgroup:p4;
protocolgroup:p6 = protocolgroup:p5, protocolgroup:p5, protocolgroup:p5, protocolgroup:p5;
protocolgroup:p7 = protocolgroup:p6, protocolgroup:p6, protocolgroup:p6, protocolgroup:p6;
";

// The last one has 4,194,304 protocols.
const FOURFOLD_ON: &str = "\
protocolgroup:p8 = protocolgroup:p7, protocolgroup:p7, protocolgroup:p7, protocolgroup:p7;
protocolgroup:p9 = protocolgroup:p8, protocolgroup:p8, protocolgroup:p8, protocolgroup:p8;
protocolgroup:p10 = protocolgroup:p9, protocolgroup:p9, protocolgroup:p9, protocolgroup:p9;
protocolgroup:p11 = protocolgroup:p10, protocolgroup:p10, protocolgroup:p10, protocolgroup:p10;
";

const MANY_PROTOCOLS: &str = "\
service:s1 = {
 user = host:a0;
 permit src = user; dst = host:b0; prt = protocolgroup:p11;
}
";

const MANY_PROTOCOLS_TO_NONE: &str = "\
service:s1 = {
 user = host:a0;
 permit src = user; dst = group:g1 & group:g2; prt = protocolgroup:p11;
}
";

const MANY_PERMITS: &str = "\
service:s1 = {
 user = group:g1;
 permit src = user; dst = group:g2; prt = protocolgroup:p7;
}
";

const MANY_DENIALS: &str = "\
service:s1 = {
 user = group:g1;
 deny src = user; dst = group:g2; prt = protocolgroup:p7;
}
";

// 8,192 permits, of each of which a denial leaves 509 pieces: 255 types of ICMP, TCP, UDP and 252 more protocols.
const MANY_PIECES: &str = "\
protocolgroup:q1 = ip, ip, ip, ip;
protocolgroup:q2 = protocolgroup:q1, protocolgroup:q1;
protocolgroup:q3 = protocolgroup:q2, protocolgroup:q2, protocolgroup:q2, protocolgroup:q2;
service:s1 = {
 user = group:g1;
 permit src = user; dst = group:g2; prt = protocolgroup:q3;
 deny src = user; dst = group:g2; prt = icmp 8;
}
";

static TOO_MANY: [Case; 3] = [
    // 4,194,304 permits.
    Case {
        files: &[("p", &[SIXTEEN_HOSTS, ONE_ROUTER, FOURFOLD, MANY_PERMITS])],
        status: 1,
        text: "fault Limit permits\n",
        ..CASE
    },
    // As many denials, and nothing that they could take away from.
    Case {
        files: &[("p", &[SIXTEEN_HOSTS, ONE_ROUTER, FOURFOLD, MANY_DENIALS])],
        status: 1,
        text: "fault Limit permits\n",
        ..CASE
    },
    // More pieces than that, of few permits and denials.
    Case {
        files: &[("p", &[SIXTEEN_HOSTS, ONE_ROUTER, MANY_PIECES])],
        status: 1,
        text: "fault Limit permits\n",
        ..CASE
    },
];

#[test]
fn too_many_are_refused(rt: HostRuntime) -> Result<(), Fail> {
    check_all(&rt, rt.alloc(), &TOO_MANY)?;
    Ok(())
}

static TOO_MANY_PROTOCOLS: [Case; 2] = [
    // One rule from one host to one, with more protocols than there may be permits.
    Case {
        files: &[(
            "p",
            &[
                SIXTEEN_HOSTS,
                ONE_ROUTER,
                FOURFOLD,
                FOURFOLD_ON,
                MANY_PROTOCOLS,
            ],
        )],
        status: 1,
        text: "fault Limit permits\n",
        ..CASE
    },
    // So many protocols to no destination permit nothing.
    Case {
        files: &[(
            "p",
            &[
                SIXTEEN_HOSTS,
                ONE_ROUTER,
                FOURFOLD,
                FOURFOLD_ON,
                MANY_PROTOCOLS_TO_NONE,
            ],
        )],
        text: "networks 2\nzones 2\nrouters 1\npermits 0\nlocal 0\nlines 2\nroutes 0\n",
        only_text: true,
        ..CASE
    },
];

#[test]
fn too_many_protocols_are_permits(rt: HostRuntime) -> Result<(), Fail> {
    check_all(&rt, rt.alloc(), &TOO_MANY_PROTOCOLS)?;
    Ok(())
}
