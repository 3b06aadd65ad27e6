ghost use Rattle.std.specs.Prelude.{◌≡◌, ◌++◌, ◌^◌, ◌<◌, IfOk, map, codes, length};
ghost use Rattle.std.specs.Fmt.{decimal};
ghost use Rattle.fault_text.specs.Texts.{pair_of, source_at, part_of, text_at, value_text, kind_word, named_word, bare_name, name_under, name_text, names_text};
ghost use Rattle.fault_text.specs.Texts.{hop_text, limit_word, place_text, fault_word, detail_text, things_text, fault_line};

use spoc_base::{Fault, HopAt, Kind, LimitWord, Named, NoMemory, Source, Span, Text};
use std::alloc::Global;

// The path of a source, and nothing where there is none.
fn path_at(sources: &[Source], file: u32) -> &[u8]
    ensures { result.now ≡ (source_at (map pair_of sources.now) file).0 }
{
    match sources.get(file as usize) {
        Some(source) => source.path.bytes(),
        None => b"",
    }
}

// The bytes of a source, and nothing where there is none.
fn bytes_at(sources: &[Source], file: u32) -> &[u8]
    ensures { result.now ≡ (source_at (map pair_of sources.now) file).1 }
{
    match sources.get(file as usize) {
        Some(source) => source.text.bytes(),
        None => b"",
    }
}

// The part of a text from one byte to before another.
fn part_of(text: &[u8], start: usize, end: usize) -> &[u8]
    ensures { result.now ≡ part_of text.now start end }
{
    if start <= end && end <= text.len() {
        &text[start..end]
    } else {
        b""
    }
}

// The bytes of a span.
fn text_at(sources: &[Source], span: Span) -> &[u8]
    ensures { result.now ≡ text_at (map pair_of sources.now) span }
{
    part_of(
        bytes_at(sources, span.file),
        span.start as usize,
        span.end as usize,
    )
}

// Adds a value, with a blank before it.
fn add_value(line: &mut Vec<u8>, value: &[u8]) -> Result<(), NoMemory>
    ensures { IfOk result (λ _. line.new.items ≡ line.old.items ++ value_text value.now) }
{
    line.extend_from_slice(b" ")?;
    line.extend_from_slice(value)?;
    Ok(())
}

// The word that stands before a name of a kind.
fn kind_word(kind: Kind) -> &'static [u8]
    ensures { result.now ≡ kind_word kind }
{
    match kind {
        Kind::Network => b"network",
        Kind::Host => b"host",
        Kind::Router => b"router",
        Kind::Group => b"group",
        Kind::Area => b"area",
        Kind::Aggregate => b"any",
        Kind::Protocol => b"protocol",
        Kind::ProtocolGroup => b"protocolgroup",
        Kind::Restriction => b"pathrestriction",
        Kind::Service => b"service",
        Kind::Tag => b"nat",
        Kind::Zone => b"zone",
    }
}

// The word that stands before the name of a thing.
fn named_word(name: Named) -> &'static [u8]
    ensures { result.now ≡ named_word name }
{
    match name {
        Named::Plain(kind, _) => kind_word(kind),
        Named::Iface(_, _) => b"interface",
    }
}

// Adds a thing's name alone.
fn add_bare_name(line: &mut Vec<u8>, sources: &[Source], name: Named) -> Result<(), NoMemory>
    ensures { IfOk result (λ _. line.new.items ≡ line.old.items ++ bare_name (map pair_of sources.now) name) }
{
    match name {
        Named::Plain(_, name) => line.extend_from_slice(text_at(sources, name))?,
        Named::Iface(router, net) => {
            line.extend_from_slice(text_at(sources, router))?;
            line.extend_from_slice(b".")?;
            line.extend_from_slice(text_at(sources, net))?;
        }
    }
    Ok(())
}

// Adds a thing under a word, as in `network:n1`.
fn add_name_under(
    line: &mut Vec<u8>,
    word: &[u8],
    sources: &[Source],
    name: Named,
) -> Result<(), NoMemory>
    ensures { IfOk result (λ _. line.new.items ≡ line.old.items ++ name_under word.now (map pair_of sources.now) name) }
{
    add_value(line, word)?;
    line.extend_from_slice(b":")?;
    add_bare_name(line, sources, name)
}

// Adds a thing by its own word.
fn add_name(line: &mut Vec<u8>, sources: &[Source], name: Named) -> Result<(), NoMemory>
    ensures { IfOk result (λ _. line.new.items ≡ line.old.items ++ name_text (map pair_of sources.now) name) }
{
    add_name_under(line, named_word(name), sources, name)
}

// Adds things, each by its own word.
fn add_names(line: &mut Vec<u8>, sources: &[Source], names: &[Named]) -> Result<(), NoMemory>
    ensures { IfOk result (λ _. line.new.items ≡ line.old.items ++ names_text (map pair_of sources.now) names.now) }
{
    for name in names {
        add_name(line, sources, *name)?;
    }
    Ok(())
}

// Adds a hop: the next interface, or the one that leads straight into the network.
fn add_hop(line: &mut Vec<u8>, sources: &[Source], hop: HopAt) -> Result<(), NoMemory>
    ensures { IfOk result (λ _. line.new.items ≡ line.old.items ++ hop_text (map pair_of sources.now) hop) }
{
    match hop {
        HopAt::Next(iface) => add_name(line, sources, iface),
        HopAt::Direct(iface) => add_name_under(line, b"direct", sources, iface),
    }
}

// What a limit holds for.
fn limit_word(what: LimitWord) -> &'static [u8]
    ensures { result.now ≡ limit_word what }
{
    match what {
        LimitWord::Networks => b"networks",
        LimitWord::Routers => b"routers",
        LimitWord::Interfaces => b"interfaces",
        LimitWord::Hosts => b"hosts",
        LimitWord::Services => b"services",
        LimitWord::Names => b"names",
        LimitWord::Nesting => b"nesting",
    }
}

// Adds a place: the path of its file and the offset.
fn add_place(
    line: &mut Vec<u8>,
    alloc: Global,
    sources: &[Source],
    file: u32,
    offset: u32,
) -> Result<(), NoMemory>
    ensures { IfOk result (λ _. line.new.items ≡ line.old.items ++ place_text (map pair_of sources.now) file offset) }
{
    add_value(line, path_at(sources, file))?;
    let number = format!(in alloc; "{offset}")?;
    add_value(line, number.as_bytes())?;
    Ok(())
}

// Adds the number of a rule for the parts of a declaration.
fn add_rule(line: &mut Vec<u8>, alloc: Global, k: u8) -> Result<(), NoMemory>
    ensures { IfOk result (λ _. line.new.items ≡ line.old.items ++ value_text (codes "S" ++ decimal k)) }
{
    let rule = format!(in alloc; "S{k}")?;
    add_value(line, rule.as_bytes())
}

// The words that name a fault.
fn fault_word(fault: Fault) -> &'static [u8]
    ensures { result.now ≡ fault_word fault }
{
    match fault {
        Fault::Lex { .. } => b"Lex",
        Fault::LeftOut { .. } => b"LeftOut",
        Fault::Deep { .. } => b"Deep",
        Fault::Syntax { .. } => b"Syntax",
        Fault::Twice { .. } => b"Twice",
        Fault::Unknown { .. } => b"Unknown",
        Fault::Circle { .. } => b"Circle",
        Fault::Shape { .. } => b"Shape",
        Fault::Limit { .. } => b"Limit",
        Fault::AreaSplit { .. } => b"AreaSplit",
        Fault::NatConflict { .. } => b"NatConflict",
        Fault::NatTwice { .. } => b"NatTwice",
        Fault::NatInside { .. } => b"NatInside",
        Fault::LimitViews => b"Limit views",
        Fault::SamePrefix { .. } => b"SamePrefix",
        Fault::HostShadowed { .. } => b"HostShadowed",
        Fault::ManagedEnd { .. } => b"ManagedEnd",
        Fault::LimitPermits => b"Limit permits",
        Fault::NoPath { .. } => b"NoPath",
        Fault::HiddenEnd { .. } => b"HiddenEnd",
        Fault::LimitLines => b"Limit lines",
        Fault::LimitRoutes => b"Limit routes",
        Fault::NoHopAddress { .. } => b"NoHopAddress",
        Fault::AmbiguousHop { .. } => b"AmbiguousHop",
    }
}

// Adds what a fault tells before it names things: a place, a rule or a word.
fn add_detail(
    line: &mut Vec<u8>,
    alloc: Global,
    sources: &[Source],
    fault: Fault,
) -> Result<(), NoMemory>
    ensures { IfOk result (λ _. line.new.items ≡ line.old.items ++ detail_text (map pair_of sources.now) fault) }
{
    match fault {
        Fault::Lex { file, offset }
        | Fault::Deep { file, offset }
        | Fault::Syntax { file, offset } => add_place(line, alloc, sources, file, offset),
        Fault::LeftOut { file, offset, word } => {
            add_place(line, alloc, sources, file, offset)?;
            add_value(line, text_at(sources, word))
        }
        Fault::Shape { k, .. } => add_rule(line, alloc, k),
        Fault::Limit { what } => add_value(line, limit_word(what)),
        _ => Ok(()),
    }
}

// Adds the things that a fault names, and its hops.
fn add_things(line: &mut Vec<u8>, sources: &[Source], fault: Fault) -> Result<(), NoMemory>
    ensures { IfOk result (λ _. line.new.items ≡ line.old.items ++ things_text (map pair_of sources.now) fault) }
{
    match fault {
        Fault::Twice { name }
        | Fault::Unknown { name }
        | Fault::Circle { name }
        | Fault::Shape { name, .. } => add_names(line, sources, &[name]),
        Fault::AreaSplit { area, border } => add_names(line, sources, &[area, border]),
        Fault::NatConflict { tag, zone } => add_names(line, sources, &[tag, zone]),
        Fault::NatTwice {
            net,
            zone,
            first,
            second,
        } => { add_names(line, sources, &[net, zone, first, second]) }
        Fault::NatInside { net, tag } => add_names(line, sources, &[net, tag]),
        Fault::SamePrefix { first, second, at } => add_names(line, sources, &[first, second, at]),
        Fault::HostShadowed { name, net, at } => add_names(line, sources, &[name, net, at]),
        Fault::ManagedEnd { service, iface } => add_names(line, sources, &[service, iface]),
        Fault::NoPath { src, dst } => add_names(line, sources, &[src, dst]),
        Fault::HiddenEnd {
            src,
            dst,
            net,
            zone,
        } => { add_names(line, sources, &[src, dst, net, zone]) }
        Fault::NoHopAddress { router, net, iface } => {
            add_names(line, sources, &[router, net, iface])
        }
        Fault::AmbiguousHop {
            router,
            net,
            first,
            second,
        } => {
            add_names(line, sources, &[router, net])?;
            add_hop(line, sources, first)?;
            add_hop(line, sources, second)
        }
        _ => Ok(()),
    }
}

/// The line of a policy that is refused, as `fault NoPath network:n1 network:n2` and a line feed.
pub fn fault_line(alloc: Global, fault: Fault, sources: &[Source]) -> Result<Text, NoMemory>
    ensures { IfOk result (λ text. text ≡ fault_line (map pair_of sources.now) fault) }
{
    let mut line = Vec::from_slice(alloc, b"fault ")?;
    line.extend_from_slice(fault_word(fault))?;
    add_detail(&mut line, alloc, sources, fault)?;
    add_things(&mut line, sources, fault)?;
    line.extend_from_slice(b"\n")?;
    Text::of(alloc, &line)
}
