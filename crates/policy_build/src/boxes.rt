ghost use Rattle.std.specs.Prelude.{◌≡◌, map, IfOk, if◌then◌else◌, Some, None, option_map};
ghost use Rattle.spoc_base.specs.Shown.{ports_of, box_of};
ghost use Rattle.spoc_ast.specs.Seen.{simple_seen};
ghost use Rattle.policy_decls.specs.Numbers.{is_bad_range, is_bad_number, interval_from};
ghost use Rattle.policy_numbers.specs.Seen.{ends_seen, pair_seen, kind_seen};
ghost use Rattle.policy_build.specs.Fair.{fair_box, fair_tcp, fair_udp, fair_icmp, fair_proto};

use policy_numbers::{Ends, IcmpKind, PortPair, icmp, number, port_pair};
use spoc_ast::Simple;
use spoc_base::{NoMemory, PortRange, TBox};
use std::alloc::Global;

/// What a protocol permits. Where a number in it is out of range, everything.
pub(crate) fn simple_box(alloc: Global, simple: &Simple<'_>) -> Result<TBox, NoMemory>
    ensures { IfOk result (λ found. box_of found ≡ fair_box (simple_seen simple.now)) }
{
    Ok(match simple {
        Simple::Ip => TBox::Any,
        Simple::Tcp(words) => tcp(port_pair(alloc, words)?),
        Simple::Udp(words) => udp(port_pair(alloc, words)?),
        Simple::Icmp(words) => icmp_box(icmp(alloc, words)?),
        Simple::Proto(word) => proto(number(word.text)),
    })
}

// The range of these ports, None where they are none.
fn ports(ends: Ends) -> Option<PortRange>
    ensures { option_map ports_of result ≡ (if is_bad_range (ends_seen ends) then None else Some (interval_from (ends_seen ends))) }
{
    if ends.first > 65535 || ends.last > 65535 {
        return None;
    }
    PortRange::new(ends.first as u16, ends.last as u16)
}

fn tcp(pair: Option<PortPair>) -> TBox
    ensures { box_of result ≡ fair_tcp (option_map pair_seen pair) }
{
    let Some(pair) = pair else {
        return TBox::Any;
    };
    match (ports(pair.source), ports(pair.destination)) {
        (Some(src), Some(dst)) => TBox::Tcp {
            src,
            dst,
            est: false,
        },
        _ => TBox::Any,
    }
}

fn udp(pair: Option<PortPair>) -> TBox
    ensures { box_of result ≡ fair_udp (option_map pair_seen pair) }
{
    let Some(pair) = pair else {
        return TBox::Any;
    };
    match (ports(pair.source), ports(pair.destination)) {
        (Some(src), Some(dst)) => TBox::Udp { src, dst },
        _ => TBox::Any,
    }
}

// The number, where there is one, as a byte.
fn byte(number: Option<u32>) -> Option<Option<u8>>
    ensures { result ≡ (if is_bad_number number then None else Some number) }
{
    match number {
        None => Some(None),
        Some(number) if number <= 255 => Some(Some(number as u8)),
        Some(_) => None,
    }
}

fn icmp_box(kind: Option<IcmpKind>) -> TBox
    ensures { box_of result ≡ fair_icmp (option_map kind_seen kind) }
{
    let Some(kind) = kind else {
        return TBox::Any;
    };
    match (byte(kind.kind), byte(kind.code)) {
        (Some(kind), Some(code)) => TBox::Icmp { kind, code },
        _ => TBox::Any,
    }
}

fn proto(number: Option<u32>) -> TBox
    ensures { box_of result ≡ fair_proto number }
{
    match number {
        Some(number) if number <= 255 => TBox::Other {
            proto: number as u8,
        },
        _ => TBox::Any,
    }
}
