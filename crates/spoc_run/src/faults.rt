// Policies of one text that are refused: the grammar, names, groups in groups, and what must not stand in a declaration.
use crate::cases::{CASE, Case, check_all, refuse_all, refuse_each};
use std::test::Fail;

// ---- the grammar

// What no row of the grammar allows.
static BAD: [&'static str; 25] = [
    "network:n.m = {}",
    "network:n = { ip = 10.1.01.0/24; }",
    "network:n = { ip = 10.1.1.0/33; }",
    "network:n = { ip = 256.1.1.0/24; }",
    "network:n = { ip = 10.1.1/24; }",
    "network:n = { host:h = { range = 10.1.1.1 10.1.1.9; } }",
    "network:n = { ip = 10.1.1.0/24, 10.1.2.0/24; }",
    "router:r = { interface:n = { bind_nat = s, t,; } }",
    "group:g = description = x;",
    "group:g = network:n & ;",
    "group:g = ! network:n;",
    "group:g = network:n,,;",
    "group:g = user;",
    "group:g = area:a;",
    "group:g = network:[network:n;",
    "area:a = { border = interface:r.n,; }",
    "protocol:p = tcp 8 0;",
    "protocol:p = tcp 80:;",
    "protocol:p = tcp 080;",
    "protocol:p = icmp 3-0;",
    "protocol:p = proto;",
    "service:s = { user = network:n; }",
    "service:s = { user = user; permit src = user; dst = user; prt = ip; }",
    "service:s = { user = network:n; permit src = user; prt = ip; }",
    "service:s = { user = network:n; permit src = area:a; dst = user; prt = ip; }",
];

#[test]
fn what_no_row_of_the_grammar_allows(rt: HostRuntime) -> Result<(), Fail> {
    refuse_each(&rt, rt.alloc(), &BAD, "fault Syntax p 0\n")?;
    Ok(())
}

// The same of translations that hide, of shared addresses and of denials.
static BAD_TOO: [&'static str; 11] = [
    "network:n = { hidden; }",
    "network:n = { nat:t = { hidden = x; } }",
    "network:n = { nat:t = { hidden } }",
    "router:r = { virtual = { } }",
    "router:r = { interface:n = { virtual; } }",
    "router:r = { interface:n = { virtual = { ip = 10.1.1.0/24; } } }",
    "router:r = { interface:n = { virtual = { id = 000001; } } }",
    "router:r = { interface:n = { virtual = { owner = x; } } }",
    "router:r = { interface:n = { virtual = { ip = 10.1.1.1; }; } }",
    "service:s = { user = network:n; deny permit src = user; dst = user; prt = ip; }",
    "service:s = { deny; user = network:n; deny src = user; dst = user; prt = ip; }",
];

#[test]
fn what_no_row_of_the_grammar_allows_either(rt: HostRuntime) -> Result<(), Fail> {
    refuse_each(&rt, rt.alloc(), &BAD_TOO, "fault Syntax p 0\n")?;
    Ok(())
}

// Each row of the grammar is read, and then a later fault is told.
static READ: [(&'static str, &'static str); 9] = [
    ("network:n-1_A = {}", "fault Shape S1 network:n-1_A\n"),
    (
        "network:n = { description = # a { b\n ip = 10.1.1.0/24; host:h = { ip = 10.1.1.9; } nat:t = { ip = 1.0.0.0/8; } has_subnets; }",
        "fault Shape S5 network:n\n",
    ),
    (
        "network:n = { host:h = { range = 10.1.1.1 - 10.1.1.9; owner = a, b; } nat:t = { } }",
        "fault Shape S1 network:n\n",
    ),
    (
        "network:n = { nat:t = { hidden; } nat:s = { hidden; hidden; ip = 1.0.0.0/8; } }",
        "fault Shape S1 network:n\n",
    ),
    (
        "router:r = { description = x\n managed; model = IOS; routing = dynamic; interface:n; interface:m = { ip = 1.2.3.4; hardware = a/0:1.2; bind_nat = s, t; } }",
        "fault Unknown network:n\n",
    ),
    (
        "router:r = { managed = primary; managed = full; managed = standard; routing = manual; interface:n = {} subnet_of = network:x; }",
        "fault Unknown network:n\n",
    ),
    (
        "router:r = { interface:n = { virtual = { id = 0; type = a/b; ip = 0.0.0.0; ip = 1.2.3.4; } owner = x; } interface:m; }",
        "fault Unknown network:n\n",
    ),
    (
        "group:g = description = x\n network:n, host:h, interface:r.n, group:h, any:a,;",
        "fault Unknown network:n\n",
    ),
    (
        "group:g = network:n & ! host:h & group:k, network:[any:[ip = 10.0.0.0/8 & area:a], host:[area:b & !network:n,]];",
        "fault Unknown network:n\n",
    ),
];

#[test]
fn rows_of_the_grammar_are_read(rt: HostRuntime) -> Result<(), Fail> {
    refuse_all(&rt, rt.alloc(), &READ)?;
    Ok(())
}

static READ_TOO: [(&'static str, &'static str); 8] = [
    (
        "area:a = { anchor = network:n; border = interface:r.n, interface:s.n; multi_owner; }",
        "fault Unknown network:n\n",
    ),
    (
        "any:a = { description =\n link = network:n; ip = 0.0.0.0/0; overlaps = x; }",
        "fault Unknown network:n\n",
    ),
    (
        "protocol:p = ip; protocol:p = tcp, overlaps, no_check_supernet_rules; protocol:p = tcp 80 - 90 : 1; protocol:p = udp 1:2-3;",
        "fault Twice protocol:p\n",
    ),
    (
        "protocol:p = icmp; protocol:p = icmp 3 / 0; protocol:p = icmp 8; protocol:p = proto 50;",
        "fault Twice protocol:p\n",
    ),
    (
        "protocolgroup:g = protocol:p, protocolgroup:h, tcp 0, ip,;",
        "fault Unknown protocol:p\n",
    ),
    (
        "pathrestriction:p = description = x\n interface:r.n, interface:s.m,;",
        "fault Unknown interface:r.n\n",
    ),
    (
        "service:s = { description = x\n unknown_owner; has_unenforceable; no_check_supernet_rules; user = network:n; permit src = user; dst = network:[user & host:h]; prt = tcp 80, protocol:p,; permit src = network:n; dst = user; prt = ip; }",
        "fault Unknown network:n\n",
    ),
    (
        "service:s = { overlaps = deny; user = network:n; deny src = user; dst = host:h; prt = tcp 80; permit src = user; dst = user; prt = ip; deny src = user; dst = user; prt = udp,; }",
        "fault Unknown network:n\n",
    ),
];

#[test]
fn other_rows_of_the_grammar_are_read(rt: HostRuntime) -> Result<(), Fail> {
    refuse_all(&rt, rt.alloc(), &READ_TOO)?;
    Ok(())
}

// The offset is that of the token behind the longest run of whole declarations.
static OFFSETS: [(&'static str, &'static str); 4] = [
    (";", "fault Syntax p 0\n"),
    ("# x\n group:g = ; }", "fault Syntax p 17\n"),
    ("group:g=;group:h=;network:n={ip=1;}", "fault Syntax p 18\n"),
    (
        "group:g = ;\n\tdescription = group:h = ;",
        "fault Syntax p 13\n",
    ),
];

#[test]
fn offsets_of_unread_tokens(rt: HostRuntime) -> Result<(), Fail> {
    refuse_all(&rt, rt.alloc(), &OFFSETS)?;
    Ok(())
}

// ---- names, and groups in groups

static NAMES: [(&'static str, &'static str); 6] = [
    (
        "network:n = { ip = 10.1.1.0/24; } network:m = { ip = 10.2.0.0/16; } network:n = { ip = 10.1.1.0/24; }",
        "fault Twice network:n\n",
    ),
    (
        "network:n = { ip = 10.1.1.0/24; nat:x = { ip = 10.3.0.0/24; } nat:x = { ip = 10.4.0.0/24; } }",
        "fault Twice nat:x\n",
    ),
    (
        "network:n = { ip = 10.1.1.0/24; } router:r = { interface:n; interface:n; }",
        "fault Twice interface:r.n\n",
    ),
    (
        "network:n = { ip = 10.1.1.0/24; } group:h = ; group:g = interface:r.n, group:k;",
        "fault Unknown interface:r.n\n",
    ),
    (
        "network:n = { ip = 10.1.1.0/24; } group:h = network:n; group:g = group:h, group:k;",
        "fault Unknown group:k\n",
    ),
    (
        "protocolgroup:a = protocolgroup:b; protocolgroup:b = protocolgroup:c; protocolgroup:c = protocolgroup:c, protocolgroup:b;",
        "fault Circle protocolgroup:b\n",
    ),
];

#[test]
fn names_at_fault(rt: HostRuntime) -> Result<(), Fail> {
    refuse_all(&rt, rt.alloc(), &NAMES)?;
    Ok(())
}

// 64 groups, each of which names the next.
const CHAIN: &str = "\
group:A = group:B;
group:B = group:C;
group:C = group:D;
group:D = group:E;
group:E = group:F;
group:F = group:G;
group:G = group:H;
group:H = group:I;
group:I = group:J;
group:J = group:K;
group:K = group:L;
group:L = group:M;
group:M = group:N;
group:N = group:O;
group:O = group:P;
group:P = group:Q;
group:Q = group:R;
group:R = group:S;
group:S = group:T;
group:T = group:U;
group:U = group:V;
group:V = group:W;
group:W = group:X;
group:X = group:Y;
group:Y = group:Z;
group:Z = group:a;
group:a = group:b;
group:b = group:c;
group:c = group:d;
group:d = group:e;
group:e = group:f;
group:f = group:g;
group:g = group:h;
group:h = group:i;
group:i = group:j;
group:j = group:k;
group:k = group:l;
group:l = group:m;
group:m = group:n;
group:n = group:o;
group:o = group:p;
group:p = group:q;
group:q = group:r;
group:r = group:s;
group:s = group:t;
group:t = group:u;
group:u = group:v;
group:v = group:w;
group:w = group:x;
group:x = group:y;
group:y = group:z;
group:z = group:0;
group:0 = group:1;
group:1 = group:2;
group:2 = group:3;
group:3 = group:4;
group:4 = group:5;
group:5 = group:6;
group:6 = group:7;
group:7 = group:8;
group:8 = group:9;
group:9 = group:-;
group:- = group:_;
group:_ = ;
";

static CHAINS: [Case; 2] = [
    // 64 groups in one another.
    Case {
        files: &[("p", &[CHAIN])],
        text: "networks 0\nzones 0\nrouters 0\npermits 0\nlocal 0\nlines 0\nroutes 0\n",
        ..CASE
    },
    // 65 of them.
    Case {
        files: &[("p", &["group:first = group:A;\n", CHAIN])],
        status: 1,
        text: "fault Limit nesting\n",
        ..CASE
    },
];

#[test]
fn groups_nest_64_levels_deep(rt: HostRuntime) -> Result<(), Fail> {
    check_all(&rt, rt.alloc(), &CHAINS)?;
    Ok(())
}

// ---- what must not stand in a declaration

static NETWORKS_AND_ADDRESSES: [(&'static str, &'static str); 11] = [
    (
        "network:n = { host:h = { ip = 10.1.1.1; } }",
        "fault Shape S1 network:n\n",
    ),
    (
        "network:n = { ip = 10.1.1.0/24; host:h = { } }",
        "fault Shape S2 network:n\n",
    ),
    (
        "network:n = { ip = 10.1.1.0/24; host:h = { range = 10.1.1.9-10.1.1.8; } }",
        "fault Shape S2 network:n\n",
    ),
    (
        "network:n = { ip = 10.1.1.0/24; host:h = { ip = 10.2.2.1; } }",
        "fault Shape S3 network:n\n",
    ),
    (
        "network:n = { ip = 10.1.1.8/24; host:h = { ip = 10.2.2.1; } }",
        "fault Shape S3 network:n\n",
    ),
    (
        "network:n = { ip = 10.1.1.0/24; nat:x = { ip = 10.2.0.0/16; } }",
        "fault Shape S5 network:n\n",
    ),
    (
        "network:n = { ip = 10.1.1.0/24; } router:r = { managed; managed; model = IOS; interface:n = { ip = 10.1.1.1; hardware = e; } }",
        "fault Shape S6 router:r\n",
    ),
    (
        "network:n = { ip = 10.1.1.0/24; } router:r = { managed; model = PIX; interface:n = { ip = 10.1.1.1; hardware = e; } }",
        "fault Shape S6 router:r\n",
    ),
    (
        "network:n = { ip = 10.1.1.0/24; } router:r = { managed; model = IOS; interface:n = { ip = 10.1.1.1; } }",
        "fault Shape S7 router:r\n",
    ),
    (
        "network:n = { ip = 10.1.1.0/24; } router:r = { interface:n = { ip = 10.2.2.1; } }",
        "fault Shape S8 router:r\n",
    ),
    (
        "network:n = { ip = 10.1.1.0/24; } router:r = { interface:n = { ip = 10.1.1.1; } } router:s = { interface:n = { ip = 10.1.1.1; } }",
        "fault Shape S9 router:s\n",
    ),
];

#[test]
fn shapes_of_networks_and_addresses(rt: HostRuntime) -> Result<(), Fail> {
    refuse_all(&rt, rt.alloc(), &NETWORKS_AND_ADDRESSES)?;
    Ok(())
}

static OTHERS: [(&'static str, &'static str); 8] = [
    (
        "network:n = { ip = 10.1.1.0/24; } network:m = { ip = 10.2.0.0/16; } router:r = { managed; model = IOS; interface:n = { ip = 10.1.1.1; hardware = e; } interface:m = { ip = 10.2.2.1; hardware = e; } }",
        "fault Shape S10 router:r\n",
    ),
    (
        "network:n = { ip = 10.1.1.0/24; nat:x = { ip = 10.3.0.0/24; } } router:r = { interface:n = { bind_nat = x; } }",
        "fault Shape S11 router:r\n",
    ),
    (
        "network:n = { ip = 10.1.1.0/24; } router:r = { managed; model = IOS; interface:n = { ip = 10.1.1.1; hardware = e; } } pathrestriction:p = interface:r.n;",
        "fault Shape S12 pathrestriction:p\n",
    ),
    (
        "protocol:p = tcp 1-65535; protocol:q = tcp 1-65536;",
        "fault Shape S13 protocol:q\n",
    ),
    (
        "protocol:p = udp 0; protocol:q = icmp 3/256;",
        "fault Shape S13 protocol:q\n",
    ),
    ("area:a = { }", "fault Shape S14 area:a\n"),
    ("any:a = { }", "fault Shape S14 any:a\n"),
    (
        "network:n = { ip = 10.1.1.0/24; } service:s = { user = network:n; permit src = user; dst = network:n; prt = ip; permit src = network:n; dst = network:n; prt = ip; }",
        "fault Shape S14 service:s\n",
    ),
];

#[test]
fn shapes_of_others(rt: HostRuntime) -> Result<(), Fail> {
    refuse_all(&rt, rt.alloc(), &OTHERS)?;
    Ok(())
}

static HIDING_DENYING_SHARING: [(&'static str, &'static str); 7] = [
    (
        "network:n = { ip = 10.1.1.0/24; nat:x = { hidden; ip = 10.1.1.0/24; } }",
        "fault Shape S1 network:n\n",
    ),
    (
        "network:n = { ip = 10.1.1.0/24; } service:s = { user = network:n; permit src = user; dst = network:n; prt = ip; deny src = network:n; dst = network:n; prt = ip; }",
        "fault Shape S14 service:s\n",
    ),
    (
        "network:n = { ip = 10.1.1.0/24; } router:r = { interface:n = { ip = 10.1.1.1; hardware = e; virtual = { type = VRRP; ip = 10.1.1.9; } } }",
        "fault Shape S15 router:r\n",
    ),
    (
        "network:n = { ip = 10.1.1.0/24; } router:r = { managed; model = IOS; interface:n = { ip = 10.1.1.1; hardware = e; virtual = { ip = 10.2.2.1; } } }",
        "fault Shape S15 router:r\n",
    ),
    (
        "network:n = { ip = 10.1.1.0/24; } router:r = { managed; model = IOS; interface:n = { ip = 10.1.1.1; hardware = e; virtual = { ip = 10.1.1.1; } } }",
        "fault Shape S15 router:r\n",
    ),
    (
        "network:n = { ip = 10.1.1.0/24; } router:r = { managed; model = IOS; interface:n = { ip = 10.1.1.1; hardware = e; virtual = { id = 5; } } }",
        "fault Shape S15 router:r\n",
    ),
    (
        "network:n = { ip = 10.1.1.0/24; } router:r = { managed; model = IOS; interface:n = { ip = 10.1.1.1; hardware = e; virtual = { ip = 10.1.1.9; } } } router:s = { interface:n = { ip = 10.1.1.9; } }",
        "fault Shape S15 router:r\n",
    ),
];

#[test]
fn shapes_of_hidden_denied_and_shared(rt: HostRuntime) -> Result<(), Fail> {
    refuse_all(&rt, rt.alloc(), &HIDING_DENYING_SHARING)?;
    Ok(())
}
