ghost use Rattle.std.specs.Prelude.{◌≡◌, ◌++◌, ◌-◌, ◌^◌, ◌≤◌, IfOk, codes};
ghost use Rattle.std.specs.Fmt.{decimal};
ghost use Rattle.spoc_base.specs.Shown.{cidr_of, box_of, ports_of};
ghost use Rattle.acl_print.specs.Words.{dotted, host_text, mask_in, wildcard_of, netmask_of, network_text, prefix_text, action_text, protocol_text, ports_text, number_text, source_ports, other_ports, mark_text, list_name};

use itoa::Buffer;
use spoc_base::{Addr, Dialect, NoMemory, PortRange, Prefix, TBox};

pub(crate) fn put(out: &mut Vec<u8>, text: &[u8]) -> Result<(), NoMemory>
    ensures { IfOk result (λ _. out.new.items ≡ out.old.items ++ text.now) }
{
    out.extend_from_slice(text)?;
    Ok(())
}

pub(crate) fn put_number(out: &mut Vec<u8>, n: u64) -> Result<(), NoMemory>
    ensures { IfOk result (λ _. out.new.items ≡ out.old.items ++ decimal n) }
{
    let mut buffer = Buffer::new();
    put(out, buffer.format(n).as_bytes())
}

// An address as four decimals.
#[tactic(auto, unfolding(crate::specs::Words::dotted))]
pub(crate) fn put_address(out: &mut Vec<u8>, a: Addr) -> Result<(), NoMemory>
    ensures { IfOk result (λ _. out.new.items ≡ out.old.items ++ dotted a.0) }
{
    put_number(out, u64::from(a.0 / 16777216))?;
    put(out, b".")?;
    put_number(out, u64::from(a.0 / 65536 % 256))?;
    put(out, b".")?;
    put_number(out, u64::from(a.0 / 256 % 256))?;
    put(out, b".")?;
    put_number(out, u64::from(a.0 % 256))
}

// How many addresses a prefix of this length has.
fn size(len: u8) -> u64
    ensures value { result ≡ 2 ^ (32 - len) }
    ensures positive { 1 ≤ result }
    ensures bounded { result ≤ 2 ^ 32 }
{
    1u64 << 32u8.saturating_sub(len)
}

// The bits in which the addresses of a prefix differ.
fn wildcard(len: u8) -> Addr
    ensures { result.0 ≡ 2 ^ (32 - len) - 1 }
{
    Addr((size(len) - 1) as u32)
}

// The bits that its addresses share.
fn netmask(len: u8) -> Addr
    ensures { result.0 ≡ 2 ^ 32 - 2 ^ (32 - len) }
{
    Addr(((1u64 << 32) - size(len)) as u32)
}

fn mask(dialect: Dialect, p: Prefix) -> Addr
    ensures { result.0 ≡ mask_in dialect (cidr_of p) }
{
    match dialect {
        Dialect::Ios => wildcard(p.len()),
        Dialect::Asa => netmask(p.len()),
    }
}

// A network with its netmask.
pub(crate) fn put_network(out: &mut Vec<u8>, net: Addr, len: u8) -> Result<(), NoMemory>
    ensures { IfOk result (λ _. out.new.items ≡ out.old.items ++ network_text (record { net = net.0; len = len })) }
{
    put_address(out, net)?;
    put(out, b" ")?;
    put_address(out, netmask(len))
}

pub(crate) fn put_host(out: &mut Vec<u8>, a: Addr) -> Result<(), NoMemory>
    ensures { IfOk result (λ _. out.new.items ≡ out.old.items ++ host_text a.0) }
{
    put(out, b"host ")?;
    put_address(out, a)
}

// The addresses of a prefix.
#[tactic(auto, unfolding(crate::specs::Words::prefix_text))]
pub(crate) fn put_prefix(out: &mut Vec<u8>, dialect: Dialect, p: Prefix) -> Result<(), NoMemory>
    ensures { IfOk result (λ _. out.new.items ≡ out.old.items ++ prefix_text dialect (cidr_of p)) }
{
    let len = p.len();
    if len == 0 {
        return put(out, b"any");
    }
    if len == 32 {
        return put_host(out, p.net());
    }
    put_address(out, p.net())?;
    put(out, b" ")?;
    put_address(out, mask(dialect, p))
}

pub(crate) fn put_action(out: &mut Vec<u8>, permit: bool) -> Result<(), NoMemory>
    ensures { IfOk result (λ _. out.new.items ≡ out.old.items ++ action_text permit) }
{
    if permit {
        put(out, b"permit ")
    } else {
        put(out, b"deny ")
    }
}

pub(crate) fn put_protocol(out: &mut Vec<u8>, t: TBox) -> Result<(), NoMemory>
    ensures { IfOk result (λ _. out.new.items ≡ out.old.items ++ protocol_text (box_of t)) }
{
    match t {
        TBox::Any => put(out, b"ip "),
        TBox::Tcp { .. } => put(out, b"tcp "),
        TBox::Udp { .. } => put(out, b"udp "),
        TBox::Icmp { .. } => put(out, b"icmp "),
        TBox::Other { proto } => {
            put_number(out, u64::from(proto))?;
            put(out, b" ")
        }
    }
}

// Nothing for all ports.
#[tactic(auto, unfolding(crate::specs::Words::ports_text))]
fn put_ports(out: &mut Vec<u8>, ports: PortRange) -> Result<(), NoMemory>
    ensures { IfOk result (λ _. out.new.items ≡ out.old.items ++ ports_text (ports_of ports)) }
{
    let lo = ports.lo();
    let hi = ports.hi();
    if lo == 0 && hi == 65535 {
        return Ok(());
    }
    if lo == hi {
        put(out, b" eq ")?;
        return put_number(out, u64::from(lo));
    }
    put(out, b" range ")?;
    put_number(out, u64::from(lo))?;
    put(out, b" ")?;
    put_number(out, u64::from(hi))
}

// Nothing for any number.
fn put_asked(out: &mut Vec<u8>, asked: Option<u8>) -> Result<(), NoMemory>
    ensures { IfOk result (λ _. out.new.items ≡ out.old.items ++ number_text asked) }
{
    match asked {
        None => Ok(()),
        Some(n) => {
            put(out, b" ")?;
            put_number(out, u64::from(n))
        }
    }
}

// What stands behind the source.
pub(crate) fn put_source_ports(out: &mut Vec<u8>, t: TBox) -> Result<(), NoMemory>
    ensures { IfOk result (λ _. out.new.items ≡ out.old.items ++ source_ports (box_of t)) }
{
    match t {
        TBox::Tcp { src, .. } | TBox::Udp { src, .. } => put_ports(out, src),
        _ => Ok(()),
    }
}

// What stands behind the destination.
pub(crate) fn put_other_ports(out: &mut Vec<u8>, t: TBox) -> Result<(), NoMemory>
    ensures { IfOk result (λ _. out.new.items ≡ out.old.items ++ other_ports (box_of t)) }
{
    match t {
        TBox::Tcp { dst, .. } | TBox::Udp { dst, .. } => put_ports(out, dst),
        TBox::Icmp { kind, code } => {
            put_asked(out, kind)?;
            put_asked(out, code)
        }
        _ => Ok(()),
    }
}

// The mark of established segments, which IOS alone has.
pub(crate) fn put_mark(out: &mut Vec<u8>, dialect: Dialect, t: TBox) -> Result<(), NoMemory>
    ensures { IfOk result (λ _. out.new.items ≡ out.old.items ++ mark_text dialect (box_of t)) }
{
    match (dialect, t) {
        (Dialect::Ios, TBox::Tcp { est: true, .. }) => put(out, b" established"),
        _ => Ok(()),
    }
}

/// The name of the list that filters what comes in at an interface.
pub(crate) fn put_list_name(out: &mut Vec<u8>, hardware: &[u8]) -> Result<(), NoMemory>
    ensures { IfOk result (λ _. out.new.items ≡ out.old.items ++ list_name hardware.now) }
{
    put(out, hardware)?;
    put(out, b"_in")
}
