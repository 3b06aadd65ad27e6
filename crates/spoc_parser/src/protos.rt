ghost use Rattle.std.specs.Prelude.{◌≡◌, ◌<◌, OnOk, length};
ghost use Rattle.std.specs.List.{AllZip};
ghost use Rattle.spoc_parser.specs.Trees.{Lexeme, Proto, ProtoItem};
ghost use Rattle.spoc_parser.specs.Readers.{read_listed, list_ends};
ghost use Rattle.spoc_parser.specs.Reading.{read_tcp, read_udp, read_icmp, read_number, read_proto, read_proto_item, read_prts};
ghost use Rattle.spoc_parser.specs.Seen.{toks_of, Gives};
ghost use Rattle.spoc_parser.specs.SeenParts.{IsProto, IsProtoItem};

use crate::cursor::{Cursor, Source};
use crate::fail::Stop;
use crate::forms::Form;
use crate::lists::Part;
use spoc_ast::{Prt, Simple};

impl<'a> Source<'a> {
    fn tcp(self, tokens: &mut Cursor<'a, '_>) -> Result<Simple<'a>, Stop>
        ensures gives { Gives (IsProto self.entry.file) result (toks_of tokens.new.rest.now) (read_tcp (toks_of tokens.old.rest.now)) }
        ensures shorter { OnOk result (length tokens.new.rest.now < length tokens.old.rest.now) }
    {
        tokens.key(b"tcp")?;
        let ports = self.spread_or_none(tokens, Form::Ports)?;
        Ok(Simple::Tcp(ports))
    }

    fn udp(self, tokens: &mut Cursor<'a, '_>) -> Result<Simple<'a>, Stop>
        ensures gives { Gives (IsProto self.entry.file) result (toks_of tokens.new.rest.now) (read_udp (toks_of tokens.old.rest.now)) }
        ensures shorter { OnOk result (length tokens.new.rest.now < length tokens.old.rest.now) }
    {
        tokens.key(b"udp")?;
        let ports = self.spread_or_none(tokens, Form::Ports)?;
        Ok(Simple::Udp(ports))
    }

    fn icmp(self, tokens: &mut Cursor<'a, '_>) -> Result<Simple<'a>, Stop>
        ensures gives { Gives (IsProto self.entry.file) result (toks_of tokens.new.rest.now) (read_icmp (toks_of tokens.old.rest.now)) }
        ensures shorter { OnOk result (length tokens.new.rest.now < length tokens.old.rest.now) }
    {
        tokens.key(b"icmp")?;
        let kind = self.spread_or_none(tokens, Form::Icmp)?;
        Ok(Simple::Icmp(kind))
    }

    // A protocol by its number.
    fn number(self, tokens: &mut Cursor<'a, '_>) -> Result<Simple<'a>, Stop>
        ensures gives { Gives (IsProto self.entry.file) result (toks_of tokens.new.rest.now) (read_number (toks_of tokens.old.rest.now)) }
        ensures shorter { OnOk result (length tokens.new.rest.now < length tokens.old.rest.now) }
    {
        tokens.key(b"proto")?;
        let number = self.word(tokens, Form::Number)?;
        Ok(Simple::Proto(number))
    }

    // A protocol with its ports or numbers.
    pub fn proto(self, tokens: &mut Cursor<'a, '_>) -> Result<Simple<'a>, Stop>
        ensures gives { Gives (IsProto self.entry.file) result (toks_of tokens.new.rest.now) (read_proto (toks_of tokens.old.rest.now)) }
        ensures shorter { OnOk result (length tokens.new.rest.now < length tokens.old.rest.now) }
    {
        if tokens.take_key(b"ip") {
            return Ok(Simple::Ip);
        }
        if tokens.at_key(b"tcp") {
            return self.tcp(tokens);
        }
        if tokens.at_key(b"udp") {
            return self.udp(tokens);
        }
        if tokens.at_key(b"icmp") {
            return self.icmp(tokens);
        }
        self.number(tokens)
    }

    // One or more protocols with commas between them, and perhaps one behind them.
    fn proto_list(self, tokens: &mut Cursor<'a, '_>) -> Result<&'a [Prt<'a>], Stop>
        ensures gives { Gives (λ xs ys. AllZip (IsProtoItem self.entry.file) xs ys.now) result (toks_of tokens.new.rest.now) (read_listed list_ends read_proto_item (toks_of tokens.old.rest.now)) }
        ensures shorter { OnOk result (length tokens.new.rest.now < length tokens.old.rest.now) }
    {
        self.listed(tokens, true)
    }

    // Protocols behind `=`, and `;`.
    pub fn prts(self, tokens: &mut Cursor<'a, '_>) -> Result<&'a [Prt<'a>], Stop>
        ensures gives { Gives (λ xs ys. AllZip (IsProtoItem self.entry.file) xs ys.now) result (toks_of tokens.new.rest.now) (read_prts (toks_of tokens.old.rest.now)) }
        ensures shorter { OnOk result (length tokens.new.rest.now < length tokens.old.rest.now) }
    {
        tokens.sign(b"=")?;
        let prts = self.proto_list(tokens)?;
        tokens.sign(b";")?;
        Ok(prts)
    }
}

impl<'a> Part<'a> for Prt<'a> {
    ghost Plain = { ProtoItem };

    ghost reads = { read_proto_item };

    ghost is = { IsProtoItem };

    fn part(source: Source<'a>, tokens: &mut Cursor<'a, '_>) -> Result<Self, Stop> {
        if tokens.at_kind(b"protocol:") {
            let name = source.named(tokens, b"protocol:")?;
            return Ok(Prt::Protocol(name));
        }
        if tokens.at_kind(b"protocolgroup:") {
            let name = source.named(tokens, b"protocolgroup:")?;
            return Ok(Prt::Group(name));
        }
        let simple = source.proto(tokens)?;
        Ok(Prt::Simple(simple))
    }
}
