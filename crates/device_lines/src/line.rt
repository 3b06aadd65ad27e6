ghost use Rattle.std.specs.Prelude.{◌≡◌, ℕ, List, option_map, IfSome, IsNone};
ghost use Rattle.spoc_base.specs.Shown.{cidr_of};
ghost use Rattle.device_reading.specs.Facts.{Fact};
ghost use Rattle.device_lines.specs.Alone.{IsLineOf};
ghost use Rattle.device_lines.specs.Lines as plain;
ghost use Rattle.device_lines.specs.Seen.{words_of, fact_of};

use crate::command::Command;
use crate::ends::network_behind;
use crate::entry::entry_behind;
use crate::numbers::address;
use crate::words::{behind_word, cut, first_word, is_end, only_name, only_word, take_name};
use spoc_base::{Dialect, Prefix};

const NO_NAME: &[u8] = b"";

fn route_to<'t>(hardware: &'t [u8], net: Prefix, words: &'t [u8]) -> Option<Command<'t>>
    ensures { option_map fact_of result ≡ plain.route_to hardware.now (cidr_of net) (words_of words.now) }
{
    let gateway = address(only_word(words)?)?;
    Some(Command::Route {
        hardware,
        net,
        gateway,
    })
}

fn route_of<'t>(hardware: &'t [u8], words: &'t [u8]) -> Option<Command<'t>>
    ensures { option_map fact_of result ≡ plain.route_of hardware.now (words_of words.now) }
{
    let (word, rest) = first_word(words)?;
    let (net, rest) = network_behind(word, rest)?;
    route_to(hardware, net, rest)
}

fn list_of<'t>(words: &'t [u8]) -> Option<Command<'t>>
    ensures { option_map fact_of result ≡ plain.list_of (words_of words.now) }
{
    let rest = behind_word(b"extended", words)?;
    Some(Command::List(only_name(rest)?))
}

fn behind_ip<'t>(word: &[u8], words: &'t [u8]) -> Option<Command<'t>>
    ensures { option_map fact_of result ≡ plain.behind_ip word.now (words_of words.now) }
{
    if word == b"route".as_slice() {
        return route_of(NO_NAME, words);
    }
    if word == b"access-list".as_slice() {
        return list_of(words);
    }
    None
}

fn binding_of<'t>(words: &'t [u8]) -> Option<Command<'t>>
    ensures { option_map fact_of result ≡ plain.binding_of (words_of words.now) }
{
    let rest = behind_word(b"access-group", words)?;
    let (list, rest) = take_name(rest)?;
    let left = behind_word(b"in", rest)?;
    if !is_end(left) {
        return None;
    }
    Some(Command::Binding {
        hardware: NO_NAME,
        list,
    })
}

fn indented_ios<'t>(word: &[u8], words: &'t [u8]) -> Option<Command<'t>>
    ensures { option_map fact_of result ≡ plain.indented_ios word.now (words_of words.now) }
{
    if word == b"ip".as_slice() {
        return binding_of(words);
    }
    let entry = entry_behind(Dialect::Ios, word, words)?;
    Some(Command::Entry {
        list: NO_NAME,
        entry,
    })
}

fn ip_words<'t>(words: &'t [u8]) -> Option<Command<'t>>
    ensures { option_map fact_of result ≡ plain.ip_words (words_of words.now) }
{
    let (word, rest) = first_word(words)?;
    behind_ip(word, rest)
}

fn port_of<'t>(words: &'t [u8]) -> Option<Command<'t>>
    ensures { option_map fact_of result ≡ plain.port_of (words_of words.now) }
{
    Some(Command::Port(only_name(words)?))
}

fn indented_words<'t>(words: &'t [u8]) -> Option<Command<'t>>
    ensures { option_map fact_of result ≡ plain.indented_words (words_of words.now) }
{
    let (word, rest) = first_word(words)?;
    indented_ios(word, rest)
}

fn ios_words<'t>(word: &[u8], words: &'t [u8]) -> Option<Command<'t>>
    ensures { option_map fact_of result ≡ plain.ios_words word.now (words_of words.now) }
{
    if word == b"ip".as_slice() {
        return ip_words(words);
    }
    if word == b"interface".as_slice() {
        return port_of(words);
    }
    if word == NO_NAME {
        return indented_words(words);
    }
    None
}

fn named_route<'t>(words: &'t [u8]) -> Option<Command<'t>>
    ensures { option_map fact_of result ≡ plain.named_route (words_of words.now) }
{
    let (hardware, rest) = take_name(words)?;
    route_of(hardware, rest)
}

fn group_of<'t>(words: &'t [u8]) -> Option<Command<'t>>
    ensures { option_map fact_of result ≡ plain.group_of (words_of words.now) }
{
    let rest = behind_word(b"network", words)?;
    Some(Command::Group(only_name(rest)?))
}

fn entry_of<'t>(words: &'t [u8]) -> Option<Command<'t>>
    ensures { option_map fact_of result ≡ plain.entry_of (words_of words.now) }
{
    let (list, rest) = take_name(words)?;
    let rest = behind_word(b"extended", rest)?;
    let (action, rest) = first_word(rest)?;
    let entry = entry_behind(Dialect::Asa, action, rest)?;
    Some(Command::Entry { list, entry })
}

fn named_binding<'t>(words: &'t [u8]) -> Option<Command<'t>>
    ensures { option_map fact_of result ≡ plain.named_binding (words_of words.now) }
{
    let (list, rest) = take_name(words)?;
    let rest = behind_word(b"in", rest)?;
    let rest = behind_word(b"interface", rest)?;
    let hardware = only_name(rest)?;
    Some(Command::Binding { hardware, list })
}

fn host_of(words: &[u8]) -> Option<Prefix>
    ensures { option_map cidr_of result ≡ plain.host_of (words_of words.now) }
{
    let net = address(only_word(words)?)?;
    Prefix::new(net, 32)
}

fn member_net(word: &[u8], words: &[u8]) -> Option<Prefix>
    ensures { option_map cidr_of result ≡ plain.member_net word.now (words_of words.now) }
{
    let (net, rest) = network_behind(word, words)?;
    if net.len() == 32 || !is_end(rest) {
        return None;
    }
    Some(net)
}

fn member_behind(word: &[u8], words: &[u8]) -> Option<Prefix>
    ensures { option_map cidr_of result ≡ plain.member_behind word.now (words_of words.now) }
{
    if word == b"host".as_slice() {
        host_of(words)
    } else {
        member_net(word, words)
    }
}

fn member_of<'t>(words: &'t [u8]) -> Option<Command<'t>>
    ensures { option_map fact_of result ≡ plain.member_of (words_of words.now) }
{
    let rest = behind_word(b"network-object", words)?;
    let (word, rest) = first_word(rest)?;
    Some(Command::Member(member_behind(word, rest)?))
}

fn asa_lists<'t>(word: &[u8], words: &'t [u8]) -> Option<Command<'t>>
    ensures { option_map fact_of result ≡ plain.asa_lists word.now (words_of words.now) }
{
    if word == b"access-list".as_slice() {
        return entry_of(words);
    }
    if word == b"access-group".as_slice() {
        return named_binding(words);
    }
    None
}

fn asa_groups<'t>(word: &[u8], words: &'t [u8]) -> Option<Command<'t>>
    ensures { option_map fact_of result ≡ plain.asa_groups word.now (words_of words.now) }
{
    if word == b"object-group".as_slice() {
        return group_of(words);
    }
    if word == NO_NAME {
        return member_of(words);
    }
    asa_lists(word, words)
}

fn asa_words<'t>(word: &[u8], words: &'t [u8]) -> Option<Command<'t>>
    ensures { option_map fact_of result ≡ plain.asa_words word.now (words_of words.now) }
{
    if word == b"route".as_slice() {
        return named_route(words);
    }
    asa_groups(word, words)
}

fn words_say<'t>(dialect: Dialect, word: &[u8], words: &'t [u8]) -> Option<Command<'t>>
    ensures { option_map fact_of result ≡ plain.words_say dialect word.now (words_of words.now) }
{
    match dialect {
        Dialect::Ios => ios_words(word, words),
        Dialect::Asa => asa_words(word, words),
    }
}

fn said_by<'t>(dialect: Dialect, line: &'t [u8]) -> Option<Command<'t>>
    ensures { option_map fact_of result ≡ plain.said_by dialect line.now }
{
    match line {
        [] => None,
        [b'!', text @ ..] => Some(Command::Remark(text)),
        _ => {
            let (word, rest) = cut(line);
            words_say(dialect, word, rest)
        }
    }
}

/// What a line of the dialect says by itself, its line feed left out. `None` exactly where no line of the grammar is spelled so.
pub fn read_line<'t>(dialect: Dialect, line: &'t [u8]) -> Option<Command<'t>>
    ensures read { IfSome result (λ command. IsLineOf dialect (fact_of command) line.now) }
    ensures refuses { IsNone result → (fact : Fact) → IsLineOf dialect fact line.now → ⊥ }
{
    said_by(dialect, line)
}
