use crate::packet::{Packet, Point, is_answer_kind, swap};
use crate::permit::{End, Permit, answers, holds, mirrors, wanted};
use spoc_base::{Addr, AddrRange, NetId, PortRange, TBox, Transport};
use std::test::Fail;

fn end(net: u32, lo: u32, hi: u32) -> Result<End, &'static str> {
    Ok(End {
        net: NetId(net),
        range: AddrRange::new(Addr(lo), Addr(hi)).ok_or("addresses")?,
    })
}

fn point(net: u32, addr: u32) -> Point {
    Point {
        net: NetId(net),
        addr: Addr(addr),
    }
}

/// Network 0 may use the web server of network 1.
fn web() -> Result<Permit, &'static str> {
    Ok(Permit {
        src: end(0, 10, 19)?,
        dst: end(1, 25, 25)?,
        t: TBox::Tcp {
            src: PortRange::full(),
            dst: PortRange::new(80, 80).ok_or("ports")?,
            est: false,
        },
    })
}

#[test]
fn packets_of_a_permit(rt: HostRuntime) -> Result<(), Fail> {
    let permits = [web()?];
    let request = Packet {
        src: point(0, 19),
        dst: point(1, 25),
        t: Transport::Tcp {
            src: 1024,
            dst: 80,
            est: false,
        },
    };
    let reply = Packet {
        src: point(1, 25),
        dst: point(0, 19),
        t: Transport::Tcp {
            src: 80,
            dst: 1024,
            est: true,
        },
    };
    let elsewhere = Packet {
        src: point(2, 19),
        ..request
    };
    assert!(rt; holds(&permits[0], &request));
    assert!(rt; !holds(&permits[0], &elsewhere));
    assert!(rt; wanted(&permits, &request));
    assert!(rt; !wanted(&permits, &reply));
    assert!(rt; answers(&permits, &reply));
    assert!(rt; !answers(&permits, &swap(request)));
    assert_eq!(rt; swap(swap(request)), request);
    assert!(rt; !is_answer_kind(Transport::Icmp { kind: 0, code: 0 }));
    Ok(())
}

#[test]
fn mirrors_of_permits(rt: HostRuntime) -> Result<(), Fail> {
    let full = PortRange::full();
    let forth = web()?;
    let back = Permit {
        src: forth.dst,
        dst: forth.src,
        t: TBox::Any,
    };
    let tcp = TBox::Tcp {
        src: full,
        dst: full,
        est: true,
    };
    let udp = TBox::Udp {
        src: full,
        dst: full,
    };
    assert_eq!(rt;
        mirrors(&Permit {
            t: TBox::Any,
            ..forth
        }),
        [
            Some(Permit { t: tcp, ..back }),
            Some(Permit { t: udp, ..back })
        ]
    );
    assert_eq!(rt;
        mirrors(&Permit {
            t: TBox::Other { proto: 50 },
            ..forth
        }),
        [None, None]
    );
    Ok(())
}
