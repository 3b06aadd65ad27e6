// Networks by their prefixes.
use spoc_base::{Addr, NetId, Prefix};
use std::test::Fail;
use subnet_tree::{Tree, TreeFail};

fn prefix(net: u32, len: u8) -> Result<Prefix, &'static str> {
    Prefix::new(Addr(net), len).ok_or("prefix")
}

#[test]
fn nested_networks(rt: HostRuntime) -> Result<(), Fail> {
    let ten = prefix(0x0a00_0000, 8)?;
    let items = [
        (NetId(4), prefix(0, 0)?),
        (NetId(2), ten),
        (NetId(7), prefix(0x0a01_0000, 16)?),
        (NetId(1), prefix(0x0a01_0105, 32)?),
        (NetId(3), prefix(0x0a00_0000, 24)?),
    ];
    let tree = Tree::build(rt.alloc(), &items)?;
    let places = [
        (0x0a01_0105, 1),
        (0x0a01_0106, 7),
        (0x0a00_00ff, 3),
        (0x0a00_0100, 2),
        (0x0b00_0000, 4),
        (0, 4),
        (u32::MAX, 4),
    ];
    for (a, n) in places {
        assert_eq!(rt; tree.place(Addr(a)), Some(NetId(n)), "{a}");
    }
    for (n, up) in [(1, 7), (7, 2), (3, 2), (2, 4)] {
        assert_eq!(rt; tree.parent(NetId(n)), Some(NetId(up)), "{n}");
    }
    assert_eq!(rt; tree.parent(NetId(4)), None);
    assert_eq!(rt; tree.parent(NetId(0)), None);
    let inside = tree.inside(rt.alloc(), ten)?;
    assert_eq!(rt;
        inside.as_slice(),
        [NetId(1), NetId(2), NetId(3), NetId(7)].as_slice()
    );
    Ok(())
}

#[test]
fn addresses_outside(rt: HostRuntime) -> Result<(), Fail> {
    let all = prefix(0, 0)?;
    let empty = Tree::build(rt.alloc(), &[])?;
    assert_eq!(rt; empty.place(Addr(0)), None);
    assert_eq!(rt; empty.inside(rt.alloc(), all)?.len(), 0);
    let items = [(NetId(0), prefix(8, 29)?), (NetId(1), prefix(16, 32)?)];
    let tree = Tree::build(rt.alloc(), &items)?;
    for a in [0, 7, 17, u32::MAX] {
        assert_eq!(rt; tree.place(Addr(a)), None, "{a}");
    }
    assert_eq!(rt; tree.place(Addr(8)), Some(NetId(0)));
    assert_eq!(rt; tree.place(Addr(15)), Some(NetId(0)));
    assert_eq!(rt; tree.place(Addr(16)), Some(NetId(1)));
    Ok(())
}

#[test]
fn least_equal_pair(rt: HostRuntime) -> Result<(), Fail> {
    let first = prefix(8, 29)?;
    let second = prefix(16, 29)?;
    let items = [
        (NetId(5), first),
        (NetId(3), second),
        (NetId(6), second),
        (NetId(2), first),
        (NetId(1), second),
    ];
    let fail = Tree::build(rt.alloc(), &items).err();
    assert_eq!(rt; fail, Some(TreeFail::Same(NetId(1), NetId(3))));
    Ok(())
}
