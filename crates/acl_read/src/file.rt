ghost use Rattle.std.specs.Prelude.{◌≡◌, ◌≢◌, ◌<◌, ◌==◌, [], suc, map, length, option_map, position, IfOk, IfErr, IfSome};
ghost use Rattle.dev_config.specs.Seen.{config_of};
ghost use Rattle.device_reading.specs.Reading.{Reads, IsBadAt};
ghost use Rattle.text_laws.specs.Printable.{AreNamed};
ghost use Rattle.acl_read.specs.Next as plain;
ghost use Rattle.acl_read.specs.Next.{IsScanned};
ghost use Rattle.acl_read.specs.Seen.{port_at, fact_seen};

use crate::complete::complete;
use crate::config::{are_bound, config};
use crate::fact::Fact;
use bumpalo::Bump;
use dev_config::{Config, Port};
use device_lines::read_line;
use spoc_base::{Dialect, NoMemory};
use std::alloc::Global;

/// The first line of a file that may not stand where it stands, from 1, or, where each may, the number of lines and one: then a port has no list.
#[derive(Clone, Copy, Debug, PartialEq, Eq)]
pub struct BadCode {
    pub line: u64,
}

fn line_feed(text: &[u8]) -> Option<usize>
    ensures place { result ≡ position (λ c. c == 10) text.now }
    ensures within { IfSome result (λ at. at < length text.now) }
{
    text.iter().position(|b| *b == b'\n')
}

// The first line and what stands behind its line feed.
fn first_line<'t>(text: &'t [u8]) -> Option<(&'t [u8], &'t [u8])>
    ensures { option_map (λ parts. (parts.0.now, parts.1.now)) result ≡ plain.first_line text.now }
{
    let at = line_feed(text)?;
    Some((&text[..at], &text[at + 1..]))
}

fn fact_in<'t>(
    alloc: Global,
    scratch: &'t Bump,
    dialect: Dialect,
    ports: &[Port<'t>],
    above: &[Fact<'t>],
    line: &'t [u8],
) -> Result<Option<Fact<'t>>, NoMemory>
    ensures { IfOk result (λ fact. option_map fact_seen fact ≡ plain.fact_in dialect (map port_at ports.now) (map fact_seen above.now) line.now) }
{
    match read_line(dialect, line) {
        None => Ok(None),
        Some(command) => complete(alloc, scratch, dialect, ports, above, &command),
    }
}

// The fact of the first line, and what is left behind it. `None` exactly where the first line may not stand there.
fn next_fact<'t>(
    alloc: Global,
    scratch: &'t Bump,
    dialect: Dialect,
    ports: &[Port<'t>],
    above: &[Fact<'t>],
    text: &'t [u8],
) -> Result<Option<(Fact<'t>, &'t [u8])>, NoMemory>
    ensures { IfOk result (λ next. option_map (λ r. (fact_seen r.0, r.1.now)) next ≡ plain.next_fact dialect (map port_at ports.now) (map fact_seen above.now) text.now) }
{
    let Some((line, rest)) = first_line(text) else {
        return Ok(None);
    };
    let Some(fact) = fact_in(alloc, scratch, dialect, ports, above, line)? else {
        return Ok(None);
    };
    Ok(Some((fact, rest)))
}

// What the lines of a text say, or the first line that may not stand where it stands.
fn scan<'t>(
    alloc: Global,
    scratch: &'t Bump,
    dialect: Dialect,
    ports: &[Port<'t>],
    text: &'t [u8],
) -> Result<Result<Vec<Fact<'t>>, BadCode>, NoMemory>
    requires named { AreNamed (map port_at ports.now) }
    ensures scans { IfOk result (λ r. IfOk r (λ facts. IsScanned dialect (map port_at ports.now) text.now (map fact_seen facts.items) [])) }
    ensures refuses { IfOk result (λ r. IfErr r (λ bad. IsBadAt dialect (map port_at ports.now) text.now bad.line)) }
{
    let mut facts = Vec::new(alloc);
    let mut rest = text;
    while !rest.is_empty() {
        match next_fact(alloc, scratch, dialect, ports, &facts, rest)? {
            None => return Ok(Err(next_line(&facts))),
            Some((fact, left)) => {
                let Ok(()) = facts.push(fact) else {
                    return Err(NoMemory);
                };
                rest = left;
            }
        }
    }
    Ok(Ok(facts))
}

fn next_line(facts: &[Fact<'_>]) -> BadCode
    ensures { result.line ≡ suc (length facts.now) }
{
    BadCode {
        line: facts.len() as u64 + 1,
    }
}

/// What the text of a device's file reads as, on a device with these ports. Each hardware is a word: letters, digits and `_ . : / -`, one or more. What is read lies in the
/// arena. An error comes from want of memory alone.
pub fn read<'s>(
    alloc: Global,
    scratch: &'s Bump,
    dialect: Dialect,
    ports: &[Port<'s>],
    text: &'s [u8],
) -> Result<Result<Config<'s>, BadCode>, NoMemory>
    requires named { AreNamed (map port_at ports.now) }
    ensures reads { IfOk result (λ r. IfOk r (λ config. Reads dialect (map port_at ports.now) text.now (config_of config))) }
    ensures refuses { IfOk result (λ r. IfErr r (λ bad. IsBadAt dialect (map port_at ports.now) text.now bad.line)) }
{
    match scan(alloc, scratch, dialect, ports, text)? {
        Err(bad) => Ok(Err(bad)),
        Ok(facts) => {
            if !are_bound(&facts, ports) {
                return Ok(Err(next_line(&facts)));
            }
            let Ok(config) = config(alloc, scratch, &facts, ports) else {
                return Err(NoMemory);
            };
            Ok(Ok(config))
        }
    }
}
