// The line of each fault, over one source whose text is names.
use fault_text::fault_line;
use spoc_base::{Fault, HopAt, Kind, LimitWord, Named, Source, Span, Text};
use std::test::Fail;

// A part of the source.
macro_rules! part {
    ($start:literal, $end:literal) => {
        Span {
            file: 0,
            start: $start,
            end: $end,
        }
    };
}

const TEXT: &[u8] = b"n1 n2 r1 u s1 a g h x y crypto:v";

const N1: Span = part!(0, 2);

const N2: Span = part!(3, 5);

const R1: Span = part!(6, 8);

const U: Span = part!(9, 10);

const S1: Span = part!(11, 13);

const A: Span = part!(14, 15);

const G: Span = part!(16, 17);

const H: Span = part!(18, 19);

const X: Span = part!(20, 21);

const Y: Span = part!(22, 23);

const CRYPTO: Span = part!(24, 32);

static LINES: [(Fault, &'static str); 44] = [
    (
        Fault::Lex {
            file: 0,
            offset: 210,
        },
        "fault Lex p 210\n",
    ),
    (
        Fault::LeftOut {
            file: 0,
            offset: 210,
            word: CRYPTO,
        },
        "fault LeftOut p 210 crypto:v\n",
    ),
    (
        Fault::Deep {
            file: 0,
            offset: 210,
        },
        "fault Deep p 210\n",
    ),
    (
        Fault::Syntax {
            file: 0,
            offset: 210,
        },
        "fault Syntax p 210\n",
    ),
    (
        Fault::Twice {
            name: Named::Plain(Kind::Network, N1),
        },
        "fault Twice network:n1\n",
    ),
    (
        Fault::Twice {
            name: Named::Plain(Kind::Host, H),
        },
        "fault Twice host:h\n",
    ),
    (
        Fault::Twice {
            name: Named::Plain(Kind::Router, R1),
        },
        "fault Twice router:r1\n",
    ),
    (
        Fault::Twice {
            name: Named::Plain(Kind::Group, G),
        },
        "fault Twice group:g\n",
    ),
    (
        Fault::Twice {
            name: Named::Plain(Kind::Area, A),
        },
        "fault Twice area:a\n",
    ),
    (
        Fault::Twice {
            name: Named::Plain(Kind::Aggregate, A),
        },
        "fault Twice any:a\n",
    ),
    (
        Fault::Twice {
            name: Named::Plain(Kind::Protocol, X),
        },
        "fault Twice protocol:x\n",
    ),
    (
        Fault::Twice {
            name: Named::Plain(Kind::ProtocolGroup, X),
        },
        "fault Twice protocolgroup:x\n",
    ),
    (
        Fault::Twice {
            name: Named::Plain(Kind::Restriction, X),
        },
        "fault Twice pathrestriction:x\n",
    ),
    (
        Fault::Twice {
            name: Named::Plain(Kind::Service, S1),
        },
        "fault Twice service:s1\n",
    ),
    (
        Fault::Twice {
            name: Named::Plain(Kind::Tag, X),
        },
        "fault Twice nat:x\n",
    ),
    (
        Fault::Twice {
            name: Named::Iface(R1, N1),
        },
        "fault Twice interface:r1.n1\n",
    ),
    (
        Fault::Unknown {
            name: Named::Iface(R1, N1),
        },
        "fault Unknown interface:r1.n1\n",
    ),
    (
        Fault::Circle {
            name: Named::Iface(R1, N1),
        },
        "fault Circle interface:r1.n1\n",
    ),
    (
        Fault::Shape {
            k: 4,
            name: Named::Plain(Kind::Network, N1),
        },
        "fault Shape S4 network:n1\n",
    ),
    (
        Fault::Shape {
            k: 14,
            name: Named::Plain(Kind::Area, A),
        },
        "fault Shape S14 area:a\n",
    ),
    (
        Fault::Limit {
            what: LimitWord::Networks,
        },
        "fault Limit networks\n",
    ),
    (
        Fault::Limit {
            what: LimitWord::Routers,
        },
        "fault Limit routers\n",
    ),
    (
        Fault::Limit {
            what: LimitWord::Interfaces,
        },
        "fault Limit interfaces\n",
    ),
    (
        Fault::Limit {
            what: LimitWord::Hosts,
        },
        "fault Limit hosts\n",
    ),
    (
        Fault::Limit {
            what: LimitWord::Services,
        },
        "fault Limit services\n",
    ),
    (
        Fault::Limit {
            what: LimitWord::Names,
        },
        "fault Limit names\n",
    ),
    (
        Fault::Limit {
            what: LimitWord::Nesting,
        },
        "fault Limit nesting\n",
    ),
    (Fault::LimitViews, "fault Limit views\n"),
    (Fault::LimitPermits, "fault Limit permits\n"),
    (Fault::LimitLines, "fault Limit lines\n"),
    (Fault::LimitRoutes, "fault Limit routes\n"),
    (
        Fault::AreaSplit {
            area: Named::Plain(Kind::Area, A),
            border: Named::Iface(R1, N2),
        },
        "fault AreaSplit area:a interface:r1.n2\n",
    ),
    (
        Fault::NatConflict {
            tag: Named::Plain(Kind::Tag, X),
            zone: Named::Plain(Kind::Zone, N2),
        },
        "fault NatConflict nat:x zone:n2\n",
    ),
    (
        Fault::NatTwice {
            net: Named::Plain(Kind::Network, N1),
            zone: Named::Plain(Kind::Zone, N2),
            first: Named::Plain(Kind::Tag, X),
            second: Named::Plain(Kind::Tag, Y),
        },
        "fault NatTwice network:n1 zone:n2 nat:x nat:y\n",
    ),
    (
        Fault::NatInside {
            net: Named::Plain(Kind::Network, N1),
            tag: Named::Plain(Kind::Tag, X),
        },
        "fault NatInside network:n1 nat:x\n",
    ),
    (
        Fault::SamePrefix {
            first: Named::Plain(Kind::Network, N1),
            second: Named::Plain(Kind::Network, N2),
            at: Named::Plain(Kind::Zone, N1),
        },
        "fault SamePrefix network:n1 network:n2 zone:n1\n",
    ),
    (
        Fault::SamePrefix {
            first: Named::Plain(Kind::Network, N1),
            second: Named::Plain(Kind::Network, N2),
            at: Named::Plain(Kind::Router, R1),
        },
        "fault SamePrefix network:n1 network:n2 router:r1\n",
    ),
    (
        Fault::HostShadowed {
            name: Named::Plain(Kind::Host, H),
            net: Named::Plain(Kind::Network, N2),
            at: Named::Plain(Kind::Zone, N1),
        },
        "fault HostShadowed host:h network:n2 zone:n1\n",
    ),
    (
        Fault::HostShadowed {
            name: Named::Iface(U, N1),
            net: Named::Plain(Kind::Network, N2),
            at: Named::Plain(Kind::Router, R1),
        },
        "fault HostShadowed interface:u.n1 network:n2 router:r1\n",
    ),
    (
        Fault::ManagedEnd {
            service: Named::Plain(Kind::Service, S1),
            iface: Named::Iface(U, N2),
        },
        "fault ManagedEnd service:s1 interface:u.n2\n",
    ),
    (
        Fault::NoPath {
            src: Named::Plain(Kind::Network, N1),
            dst: Named::Plain(Kind::Network, N2),
        },
        "fault NoPath network:n1 network:n2\n",
    ),
    (
        Fault::HiddenEnd {
            src: Named::Plain(Kind::Network, N1),
            dst: Named::Plain(Kind::Network, N2),
            net: Named::Plain(Kind::Network, N1),
            zone: Named::Plain(Kind::Zone, N2),
        },
        "fault HiddenEnd network:n1 network:n2 network:n1 zone:n2\n",
    ),
    (
        Fault::NoHopAddress {
            router: Named::Plain(Kind::Router, R1),
            net: Named::Plain(Kind::Network, N1),
            iface: Named::Iface(U, N2),
        },
        "fault NoHopAddress router:r1 network:n1 interface:u.n2\n",
    ),
    (
        Fault::AmbiguousHop {
            router: Named::Plain(Kind::Router, R1),
            net: Named::Plain(Kind::Network, N1),
            first: HopAt::Direct(Named::Iface(R1, N1)),
            second: HopAt::Next(Named::Iface(U, N2)),
        },
        "fault AmbiguousHop router:r1 network:n1 direct:r1.n1 interface:u.n2\n",
    ),
];

#[test]
fn each_fault_has_its_line(rt: HostRuntime) -> Result<(), Fail> {
    let alloc = rt.alloc();
    let path = Text::of(alloc, b"p")?;
    let text = Text::of(alloc, TEXT)?;
    let sources = [Source { path, text }];
    for (fault, line) in &LINES {
        let printed = fault_line(alloc, *fault, &sources)?;
        assert_eq!(rt; printed.bytes(), line.as_bytes(), "{line}");
    }
    Ok(())
}
