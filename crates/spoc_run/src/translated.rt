// Whole runs over policies with translations, with lists that were worked out by hand: each list speaks the addresses of its own zone.
use crate::cases::{CASE, Case, check_all};
use std::test::Fail;

// ---- a translated source

const TRANSLATED: &str = "\
network:n1 = { ip = 10.1.1.0/24; nat:x = { ip = 192.0.2.0/24; } }
network:n2 = { ip = 10.1.2.0/24; }
router:r1 = {
 managed;
 model = IOS;
 interface:n1 = { ip = 10.1.1.1; hardware = E1; }
 interface:n2 = { ip = 10.1.2.1; hardware = E2; bind_nat = x; }
}
service:s1 = {
 user = network:n1;
 permit src = user; dst = network:n2; prt = tcp 80;
}
";

const TRANSLATED_FILE: &str = "\
! r1 IOS
ip access-list extended E1_in
 permit tcp 10.1.1.0 0.0.0.255 10.1.2.0 0.0.0.255 eq 80
 deny ip any any
ip access-list extended E2_in
 permit tcp 10.1.2.0 0.0.0.255 eq 80 192.0.2.0 0.0.0.255 established
 deny ip any any
interface E1
 ip access-group E1_in in
interface E2
 ip access-group E2_in in
";

// ---- a translated host inside the internet's prefix

const WEB: &str = "\
network:inside = {
 ip = 10.0.1.0/24;
 nat:x = { ip = 192.0.2.0/24; }
 host:web = { ip = 10.0.1.10; }
}
network:internet = { ip = 0.0.0.0/0; }
router:r1 = {
 managed;
 model = IOS;
 interface:inside = { ip = 10.0.1.1; hardware = E1; }
 interface:internet = { ip = 198.51.100.1; hardware = E2; bind_nat = x; }
}
service:s1 = {
 user = network:internet;
 permit src = user; dst = host:web; prt = tcp 80;
}
";

const WEB_FILE: &str = "\
! r1 IOS
ip access-list extended E1_in
 permit tcp host 10.0.1.10 eq 80 any established
 deny ip any any
ip access-list extended E2_in
 permit tcp any host 192.0.2.10 eq 80
 deny ip any any
interface E1
 ip access-group E1_in in
interface E2
 ip access-group E2_in in
";

// ---- two networks of one own prefix

const TWINS: &str = "\
network:a = { ip = 10.0.0.0/24; nat:x = { ip = 10.1.0.0/24; } }
network:link = { ip = 172.16.0.0/30; }
network:b = { ip = 10.0.0.0/24; nat:y = { ip = 10.2.0.0/24; } }
router:r1 = {
 managed;
 model = IOS;
 interface:a = { ip = 10.0.0.1; hardware = E1; }
 interface:link = { ip = 172.16.0.1; hardware = E2; bind_nat = x; }
}
router:r2 = {
 managed;
 model = IOS;
 interface:link = { ip = 172.16.0.2; hardware = E1; bind_nat = y; }
 interface:b = { ip = 10.0.0.1; hardware = E2; }
}
service:s1 = {
 user = network:a;
 permit src = user; dst = network:b; prt = tcp 80;
}
";

const TWINS_R1: &str = "\
! r1 IOS
ip access-list extended E1_in
 permit tcp 10.0.0.0 0.0.0.255 10.2.0.0 0.0.0.255 eq 80
 deny ip any any
ip access-list extended E2_in
 permit tcp 10.2.0.0 0.0.0.255 eq 80 10.1.0.0 0.0.0.255 established
 deny ip any any
interface E1
 ip access-group E1_in in
interface E2
 ip access-group E2_in in
";

const TWINS_R2: &str = "\
! r2 IOS
ip access-list extended E1_in
 permit tcp 10.1.0.0 0.0.0.255 10.2.0.0 0.0.0.255 eq 80
 deny ip any any
ip access-list extended E2_in
 permit tcp 10.0.0.0 0.0.0.255 eq 80 10.1.0.0 0.0.0.255 established
 deny ip any any
interface E1
 ip access-group E1_in in
interface E2
 ip access-group E2_in in
";

const ALONE: &str = "\
network:c = { ip = 10.9.0.0/24; }
";

const SAME: &str = "\
network:a = { ip = 10.0.0.0/24; }
network:b = { ip = 10.0.0.0/24; }
router:r1 = {
 managed;
 model = IOS;
 interface:a = { ip = 10.0.0.1; hardware = E1; }
 interface:b = { ip = 10.0.0.2; hardware = E2; }
}
";

const SAME_INSIDE: &str = "\
network:a = { ip = 10.0.0.0/24; nat:x = { ip = 10.1.0.0/24; } }
network:b = { ip = 10.0.0.0/24; nat:y = { ip = 10.2.0.0/24; } }
router:r1 = {
 managed;
 model = IOS;
 interface:a = { ip = 10.0.0.1; hardware = E1; bind_nat = y; }
 interface:b = { ip = 10.0.0.1; hardware = E2; bind_nat = x; }
}
";

// ---- a small site: an ASA and an IOS router, a translated office, a dmz and a link inside the internet's prefix

const SITE: &str = "\
# site
network:office = { ip = 10.10.0.0/16; nat:out = { ip = 198.18.0.0/16; } owner = it; }
network:dmz = { ip = 192.0.2.0/25; host:www = { ip = 192.0.2.10; } host:mx = { ip = 192.0.2.25; } }
network:link = { ip = 192.0.2.248/29; }
network:internet = { ip = 0.0.0.0/0; has_subnets; }
router:fw = { managed; model = ASA;
 interface:office = { ip = 10.10.0.1; hardware = inside; }
 interface:dmz = { ip = 192.0.2.1; hardware = dmz; }
 interface:link = { ip = 192.0.2.249; hardware = outside; bind_nat = out; }
}
router:edge = { managed; model = IOS;
 interface:link = { ip = 192.0.2.254; hardware = Gi0/0; }
 interface:internet = { ip = 203.0.113.2; hardware = Gi0/1; }
}
";

const SITE_RULES: &str = "\
group:public = host:www, host:mx;
protocolgroup:web = tcp 80, tcp 443;
service:browse = { description = office to the world
 user = network:office;
 permit src = user; dst = network:internet; prt = protocolgroup:web; }
service:visit = { user = group:public &! host:mx;
 permit src = network:internet; dst = user; prt = protocolgroup:web; }
service:mail = { user = network:office, network:internet;
 permit src = user; dst = host:mx; prt = tcp 25; }
";

const SITE_FW: &str = "\
! fw ASA
access-list inside_in extended deny ip 10.10.0.0 255.255.0.0 192.0.2.248 255.255.255.248
access-list inside_in extended permit tcp 10.10.0.0 255.255.0.0 host 192.0.2.25 eq 25
access-list inside_in extended deny ip 10.10.0.0 255.255.0.0 192.0.2.0 255.255.255.128
access-list inside_in extended permit tcp 10.10.0.0 255.255.0.0 any eq 80
access-list inside_in extended permit tcp 10.10.0.0 255.255.0.0 any eq 443
access-list inside_in extended deny ip any any
access-list dmz_in extended deny ip any any
access-list outside_in extended deny ip 192.0.2.248 255.255.255.248 192.0.2.0 255.255.255.128
access-list outside_in extended permit tcp any host 192.0.2.10 eq 80
access-list outside_in extended permit tcp any host 192.0.2.10 eq 443
access-list outside_in extended permit tcp any host 192.0.2.25 eq 25
access-list outside_in extended deny ip any any
access-group inside_in in interface inside
access-group dmz_in in interface dmz
access-group outside_in in interface outside
";

const SITE_EDGE: &str = "\
! edge IOS
ip access-list extended Gi0/0_in
 permit tcp host 192.0.2.10 eq 80 any established
 permit tcp host 192.0.2.10 eq 443 any established
 permit tcp host 192.0.2.25 eq 25 any established
 permit tcp 198.18.0.0 0.0.255.255 any eq 80
 permit tcp 198.18.0.0 0.0.255.255 any eq 443
 deny ip any any
ip access-list extended Gi0/1_in
 permit tcp any host 192.0.2.10 eq 80
 permit tcp any host 192.0.2.10 eq 443
 permit tcp any host 192.0.2.25 eq 25
 permit tcp any eq 80 198.18.0.0 0.0.255.255 established
 permit tcp any eq 443 198.18.0.0 0.0.255.255 established
 deny ip any any
interface Gi0/0
 ip access-group Gi0/0_in in
interface Gi0/1
 ip access-group Gi0/1_in in
";

static SEEN: [Case; 2] = [
    // A translated network is seen by its tag.
    Case {
        files: &[("p", &[TRANSLATED])],
        text: "networks 2\nzones 2\nrouters 1\npermits 1\nlocal 0\nlines 4\nroutes 0\n",
        held: &[("r1", TRANSLATED_FILE)],
        ..CASE
    },
    // A translated host is seen by its offset.
    Case {
        files: &[("p", &[WEB])],
        text: "networks 2\nzones 2\nrouters 1\npermits 1\nlocal 0\nlines 4\nroutes 0\n",
        held: &[("r1", WEB_FILE)],
        ..CASE
    },
];

#[test]
fn lists_speak_the_addresses_of_their_zone(rt: HostRuntime) -> Result<(), Fail> {
    check_all(&rt, rt.alloc(), &SEEN)?;
    Ok(())
}

static APART: [Case; 1] = [
    // Two networks of one prefix are told apart by tags.
    Case {
        files: &[("p", &[TWINS])],
        text: "networks 3\nzones 3\nrouters 2\npermits 1\nlocal 0\nlines 8\nroutes 0\n",
        held: &[("r1", TWINS_R1), ("r2", TWINS_R2)],
        ..CASE
    },
];

#[test]
fn two_networks_of_one_prefix_are_told_apart_by_tags(rt: HostRuntime) -> Result<(), Fail> {
    check_all(&rt, rt.alloc(), &APART)?;
    Ok(())
}

static ONE_PREFIX: [Case; 3] = [
    // Two networks of one prefix.
    Case {
        files: &[("p", &[SAME])],
        status: 1,
        text: "fault SamePrefix network:a network:b zone:a\n",
        ..CASE
    },
    // Two networks of one prefix in a zone that nothing joins: no tag is in force there.
    Case {
        files: &[("p", &[TWINS, ALONE])],
        status: 1,
        text: "fault SamePrefix network:a network:b zone:c\n",
        ..CASE
    },
    // Two networks of one prefix inside a router: it binds both tags, so that neither is in force inside.
    Case {
        files: &[("p", &[SAME_INSIDE])],
        status: 1,
        text: "fault SamePrefix network:a network:b router:r1\n",
        ..CASE
    },
];

#[test]
fn two_networks_of_one_prefix_are_refused(rt: HostRuntime) -> Result<(), Fail> {
    check_all(&rt, rt.alloc(), &ONE_PREFIX)?;
    Ok(())
}

static SMALL_SITE: [Case; 1] = [
    // A small site.
    Case {
        files: &[("p", &[SITE, SITE_RULES])],
        text: "networks 4\nzones 4\nrouters 2\npermits 6\nlocal 0\nlines 24\nroutes 0\n",
        held: &[("fw", SITE_FW), ("edge", SITE_EDGE)],
        ..CASE
    },
];

#[test]
fn a_small_site(rt: HostRuntime) -> Result<(), Fail> {
    check_all(&rt, rt.alloc(), &SMALL_SITE)?;
    Ok(())
}
