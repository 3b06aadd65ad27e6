ghost use Rattle.std.specs.Prelude.{◌≡◌, ◌<◌, ◌≤◌, OnOk, length, List, [], ◌∷◌, codes};
ghost use Rattle.std.specs.List.{AllZip};
ghost use Rattle.spoc_parser.specs.Trees.{Lexeme, PortItem, IdleItem, HostItem, NatItem, NetItem, VirtItem, IfaceItem, RouterItem, AreaItem, AnyItem};
ghost use Rattle.spoc_parser.specs.Readers.{read_unless, read_port, read_listed, never_ends};
ghost use Rattle.spoc_parser.specs.Reading.{read_desc, read_desc_part, no_desc, no_value, read_filter, read_list_idle, read_value_idle, read_flag_idle, read_idle, read_setting, read_at_network, read_parts, read_body, read_opening, read_host_range, read_host_item, read_hidden, read_nat_ip, read_nat_item, read_net_ip, read_host, read_nat, read_net_item, read_virt_item, read_iface_item, read_bind_nat, read_virtual, read_iface_body, read_iface, read_managed, read_router_item, read_border, read_area_item, read_any_item};
ghost use Rattle.spoc_parser.specs.Seen.{toks_of, Gives, IsWord, IsPort, IsPerhaps};
ghost use Rattle.spoc_parser.specs.SeenParts.{IsIdle, IsHostItem, IsNatItem, IsNetItem, IsVirtItem, IsIfaceItem, IsRouterItem, IsAreaItem, IsAnyItem};

use crate::cursor::{Cursor, Source};
use crate::fail::Stop;
use crate::forms::Form;
use crate::lists::{End, Part};
use spoc_ast::{
    AnyPart, AreaPart, HostPart, Idle, IfPart, NatPart, NetPart, PortName, RoutPart, VirtPart, Word,
};

impl<'a> Source<'a> {
    // `description = TEXT`, where it comes next.
    pub fn description(self, tokens: &mut Cursor<'a, '_>) -> Result<Option<Word<'a>>, Stop>
        ensures gives { Gives (IsPerhaps (IsWord self.entry.file)) result (toks_of tokens.new.rest.now) (read_desc_part (toks_of tokens.old.rest.now)) }
        ensures no_longer { OnOk result (length tokens.new.rest.now ≤ length tokens.old.rest.now) }
    {
        if !tokens.at_key(b"description") {
            return Ok(None);
        }
        tokens.key(b"description")?;
        tokens.sign(b"=")?;
        let text = self.text(tokens)?;
        Ok(Some(text))
    }

    // A word that is set to one word, as in `ip = 10.1.1.0/24;`.
    pub fn setting(
        self,
        tokens: &mut Cursor<'a, '_>,
        name: &[u8],
        form: Form,
    ) -> Result<Word<'a>, Stop>
        ensures gives { Gives (IsWord self.entry.file) result (toks_of tokens.new.rest.now) (read_setting name.now form (toks_of tokens.old.rest.now)) }
        ensures shorter { OnOk result (length tokens.new.rest.now < length tokens.old.rest.now) }
    {
        tokens.key(name)?;
        tokens.sign(b"=")?;
        let word = self.word(tokens, form)?;
        tokens.sign(b";")?;
        Ok(word)
    }

    // `owner = x, y;` or `overlaps = x, y;`.
    fn list_idle(self, tokens: &mut Cursor<'a, '_>) -> Result<Idle<'a>, Stop>
        ensures gives { Gives (IsIdle self.entry.file) result (toks_of tokens.new.rest.now) (read_list_idle (toks_of tokens.old.rest.now)) }
        ensures shorter { OnOk result (length tokens.new.rest.now < length tokens.old.rest.now) }
    {
        let key = self.word(tokens, Form::ListKey)?;
        tokens.sign(b"=")?;
        let values = self.words(tokens, Form::Any)?;
        tokens.sign(b";")?;
        Ok(Idle { key, values })
    }
    // `subnet_of = x;`.
    fn value_idle(self, tokens: &mut Cursor<'a, '_>) -> Result<Idle<'a>, Stop>
        ensures gives { Gives (IsIdle self.entry.file) result (toks_of tokens.new.rest.now) (read_value_idle (toks_of tokens.old.rest.now)) }
        ensures shorter { OnOk result (length tokens.new.rest.now < length tokens.old.rest.now) }
    {
        let key = self.word(tokens, Form::ValueKey)?;
        tokens.sign(b"=")?;
        let value = self.word(tokens, Form::Any)?;
        tokens.sign(b";")?;
        let values = self.arena.try_alloc_slice_copy(&[value])?;
        Ok(Idle { key, values })
    }

    // A word alone.
    fn flag_idle(self, tokens: &mut Cursor<'a, '_>) -> Result<Idle<'a>, Stop>
        ensures gives { Gives (IsIdle self.entry.file) result (toks_of tokens.new.rest.now) (read_flag_idle (toks_of tokens.old.rest.now)) }
        ensures shorter { OnOk result (length tokens.new.rest.now < length tokens.old.rest.now) }
    {
        let key = self.word(tokens, Form::Flag)?;
        tokens.sign(b";")?;
        Ok(Idle { key, values: &[] })
    }

    // A part without effect.
    pub fn idle(self, tokens: &mut Cursor<'a, '_>) -> Result<Idle<'a>, Stop>
        ensures gives { Gives (IsIdle self.entry.file) result (toks_of tokens.new.rest.now) (read_idle (toks_of tokens.old.rest.now)) }
        ensures shorter { OnOk result (length tokens.new.rest.now < length tokens.old.rest.now) }
    {
        if tokens.at_form(Form::ListKey) {
            return self.list_idle(tokens);
        }
        if tokens.at_form(Form::ValueKey) {
            return self.value_idle(tokens);
        }
        self.flag_idle(tokens)
    }

    // A word that is set to a network.
    fn network_of(self, tokens: &mut Cursor<'a, '_>, name: &[u8]) -> Result<Word<'a>, Stop>
        ensures gives { Gives (IsWord self.entry.file) result (toks_of tokens.new.rest.now) (read_at_network name.now (toks_of tokens.old.rest.now)) }
        ensures shorter { OnOk result (length tokens.new.rest.now < length tokens.old.rest.now) }
    {
        tokens.key(name)?;
        tokens.sign(b"=")?;
        let word = self.named(tokens, b"network:")?;
        tokens.sign(b";")?;
        Ok(word)
    }

    // `=`, `{` and perhaps a description.
    pub fn opening(self, tokens: &mut Cursor<'a, '_>) -> Result<Option<Word<'a>>, Stop>
        ensures gives { Gives (IsPerhaps (IsWord self.entry.file)) result (toks_of tokens.new.rest.now) (read_opening (toks_of tokens.old.rest.now)) }
        ensures shorter { OnOk result (length tokens.new.rest.now < length tokens.old.rest.now) }
    {
        tokens.sign(b"=")?;
        tokens.sign(b"{")?;
        self.description(tokens)
    }

    // Parts, and `}` behind them.
    pub fn parts<P: Part<'a>>(self, tokens: &mut Cursor<'a, '_>) -> Result<&'a [P], Stop>
        ensures gives { Gives (λ xs ys. AllZip (P.is self.entry.file) xs ys.now) result (toks_of tokens.new.rest.now) (read_parts P.reads (toks_of tokens.old.rest.now)) }
        ensures shorter { OnOk result (length tokens.new.rest.now < length tokens.old.rest.now) }
    {
        let parts = self.until(tokens, End::Brace)?;
        tokens.sign(b"}")?;
        Ok(parts)
    }

    // Parts in braces behind `=`.
    fn body<P: Part<'a>>(self, tokens: &mut Cursor<'a, '_>) -> Result<&'a [P], Stop>
        ensures gives { Gives (λ xs ys. AllZip (P.is self.entry.file) xs ys.now) result (toks_of tokens.new.rest.now) (read_body P.reads (toks_of tokens.old.rest.now)) }
        ensures shorter { OnOk result (length tokens.new.rest.now < length tokens.old.rest.now) }
    {
        tokens.sign(b"=")?;
        tokens.sign(b"{")?;
        self.parts(tokens)
    }

    // `range = ADDR-ADDR;`, spread over any words.
    fn host_range(self, tokens: &mut Cursor<'a, '_>) -> Result<HostPart<'a>, Stop>
        ensures gives { Gives (IsHostItem self.entry.file) result (toks_of tokens.new.rest.now) (read_host_range (toks_of tokens.old.rest.now)) }
        ensures shorter { OnOk result (length tokens.new.rest.now < length tokens.old.rest.now) }
    {
        tokens.key(b"range")?;
        tokens.sign(b"=")?;
        let words = self.spread(tokens, Form::Range)?;
        tokens.sign(b";")?;
        Ok(HostPart::Range(words))
    }

    // `hidden;`
    fn hidden(self, tokens: &mut Cursor<'a, '_>) -> Result<NatPart<'a>, Stop>
        ensures gives { Gives (IsNatItem self.entry.file) result (toks_of tokens.new.rest.now) (read_hidden (toks_of tokens.old.rest.now)) }
        ensures shorter { OnOk result (length tokens.new.rest.now < length tokens.old.rest.now) }
    {
        tokens.key(b"hidden")?;
        tokens.sign(b";")?;
        Ok(NatPart::Hidden)
    }

    // A host of a network.
    fn host(self, tokens: &mut Cursor<'a, '_>) -> Result<NetPart<'a>, Stop>
        ensures gives { Gives (IsNetItem self.entry.file) result (toks_of tokens.new.rest.now) (read_host (toks_of tokens.old.rest.now)) }
        ensures shorter { OnOk result (length tokens.new.rest.now < length tokens.old.rest.now) }
    {
        let name = self.named(tokens, b"host:")?;
        let parts = self.body(tokens)?;
        Ok(NetPart::Host { name, parts })
    }

    // A translation of a network.
    fn nat(self, tokens: &mut Cursor<'a, '_>) -> Result<NetPart<'a>, Stop>
        ensures gives { Gives (IsNetItem self.entry.file) result (toks_of tokens.new.rest.now) (read_nat (toks_of tokens.old.rest.now)) }
        ensures shorter { OnOk result (length tokens.new.rest.now < length tokens.old.rest.now) }
    {
        let name = self.named(tokens, b"nat:")?;
        let parts = self.body(tokens)?;
        Ok(NetPart::Nat { name, parts })
    }

    // `bind_nat = T, T;`.
    fn bind_nat(self, tokens: &mut Cursor<'a, '_>) -> Result<IfPart<'a>, Stop>
        ensures gives { Gives (IsIfaceItem self.entry.file) result (toks_of tokens.new.rest.now) (read_bind_nat (toks_of tokens.old.rest.now)) }
        ensures shorter { OnOk result (length tokens.new.rest.now < length tokens.old.rest.now) }
    {
        tokens.key(b"bind_nat")?;
        tokens.sign(b"=")?;
        let tags = self.words(tokens, Form::Name)?;
        tokens.sign(b";")?;
        Ok(IfPart::BindNat(tags))
    }

    // An address that interfaces share.
    fn shared(self, tokens: &mut Cursor<'a, '_>) -> Result<IfPart<'a>, Stop>
        ensures gives { Gives (IsIfaceItem self.entry.file) result (toks_of tokens.new.rest.now) (read_virtual (toks_of tokens.old.rest.now)) }
        ensures shorter { OnOk result (length tokens.new.rest.now < length tokens.old.rest.now) }
    {
        tokens.key(b"virtual")?;
        let parts = self.body(tokens)?;
        Ok(IfPart::Virtual(parts))
    }

    // The parts of an interface, where `;` says that there are none.
    fn iface_body(self, tokens: &mut Cursor<'a, '_>) -> Result<&'a [IfPart<'a>], Stop>
        ensures gives { Gives (λ xs ys. AllZip (IsIfaceItem self.entry.file) xs ys.now) result (toks_of tokens.new.rest.now) (read_iface_body (toks_of tokens.old.rest.now)) }
        ensures shorter { OnOk result (length tokens.new.rest.now < length tokens.old.rest.now) }
    {
        if tokens.take_sign(b";") {
            return Ok(&[]);
        }
        self.body(tokens)
    }

    // An interface of a router.
    fn iface(self, tokens: &mut Cursor<'a, '_>) -> Result<RoutPart<'a>, Stop>
        ensures gives { Gives (IsRouterItem self.entry.file) result (toks_of tokens.new.rest.now) (read_iface (toks_of tokens.old.rest.now)) }
        ensures shorter { OnOk result (length tokens.new.rest.now < length tokens.old.rest.now) }
    {
        let name = self.named(tokens, b"interface:")?;
        let parts = self.iface_body(tokens)?;
        Ok(RoutPart::Iface { name, parts })
    }

    // `=` and a word, where `=` comes next.
    fn filter(self, tokens: &mut Cursor<'a, '_>) -> Result<Option<Word<'a>>, Stop>
        ensures gives { Gives (IsPerhaps (IsWord self.entry.file)) result (toks_of tokens.new.rest.now) (read_unless no_value read_filter (toks_of tokens.old.rest.now)) }
        ensures no_longer { OnOk result (length tokens.new.rest.now ≤ length tokens.old.rest.now) }
    {
        if !tokens.at_sign(b"=") {
            return Ok(None);
        }
        tokens.sign(b"=")?;
        let word = self.word(tokens, Form::Filter)?;
        Ok(Some(word))
    }

    // `managed;`, or `managed` set to a word.
    fn managed(self, tokens: &mut Cursor<'a, '_>) -> Result<RoutPart<'a>, Stop>
        ensures gives { Gives (IsRouterItem self.entry.file) result (toks_of tokens.new.rest.now) (read_managed (toks_of tokens.old.rest.now)) }
        ensures shorter { OnOk result (length tokens.new.rest.now < length tokens.old.rest.now) }
    {
        tokens.key(b"managed")?;
        let filter = self.filter(tokens)?;
        tokens.sign(b";")?;
        Ok(RoutPart::Managed(filter))
    }

    // One or more interfaces with commas between them.
    fn ports(self, tokens: &mut Cursor<'a, '_>) -> Result<&'a [PortName<'a>], Stop>
        ensures gives { Gives (λ xs ys. AllZip (IsPort self.entry.file) xs ys.now) result (toks_of tokens.new.rest.now) (read_listed never_ends read_port (toks_of tokens.old.rest.now)) }
        ensures shorter { OnOk result (length tokens.new.rest.now < length tokens.old.rest.now) }
    {
        self.listed(tokens, false)
    }

    // `border = interface:R.N, interface:R.N;`.
    fn border(self, tokens: &mut Cursor<'a, '_>) -> Result<AreaPart<'a>, Stop>
        ensures gives { Gives (IsAreaItem self.entry.file) result (toks_of tokens.new.rest.now) (read_border (toks_of tokens.old.rest.now)) }
        ensures shorter { OnOk result (length tokens.new.rest.now < length tokens.old.rest.now) }
    {
        tokens.key(b"border")?;
        tokens.sign(b"=")?;
        let ports = self.ports(tokens)?;
        tokens.sign(b";")?;
        Ok(AreaPart::Border(ports))
    }
}

impl<'a> Part<'a> for PortName<'a> {
    ghost Plain = { PortItem };

    ghost reads = { read_port };

    ghost is = { IsPort };

    fn part(source: Source<'a>, tokens: &mut Cursor<'a, '_>) -> Result<Self, Stop> {
        source.port(tokens)
    }
}

impl<'a> Part<'a> for Idle<'a> {
    ghost Plain = { IdleItem };

    ghost reads = { read_idle };

    ghost is = { IsIdle };

    fn part(source: Source<'a>, tokens: &mut Cursor<'a, '_>) -> Result<Self, Stop> {
        source.idle(tokens)
    }
}

impl<'a> Part<'a> for HostPart<'a> {
    ghost Plain = { HostItem };

    ghost reads = { read_host_item };

    ghost is = { IsHostItem };

    fn part(source: Source<'a>, tokens: &mut Cursor<'a, '_>) -> Result<Self, Stop> {
        if tokens.at_key(b"ip") {
            let word = source.setting(tokens, b"ip", Form::Address)?;
            return Ok(HostPart::Ip(word));
        }
        if tokens.at_key(b"range") {
            return source.host_range(tokens);
        }
        let idle = source.idle(tokens)?;
        Ok(HostPart::Idle(idle))
    }
}

impl<'a> Part<'a> for NatPart<'a> {
    ghost Plain = { NatItem };

    ghost reads = { read_nat_item };

    ghost is = { IsNatItem };

    fn part(source: Source<'a>, tokens: &mut Cursor<'a, '_>) -> Result<Self, Stop> {
        if tokens.at_key(b"hidden") {
            return source.hidden(tokens);
        }
        let word = source.setting(tokens, b"ip", Form::Prefix)?;
        Ok(NatPart::Ip(word))
    }
}

impl<'a> Part<'a> for NetPart<'a> {
    ghost Plain = { NetItem };

    ghost reads = { read_net_item };

    ghost is = { IsNetItem };

    fn part(source: Source<'a>, tokens: &mut Cursor<'a, '_>) -> Result<Self, Stop> {
        if tokens.at_key(b"ip") {
            let word = source.setting(tokens, b"ip", Form::Prefix)?;
            return Ok(NetPart::Ip(word));
        }
        if tokens.at_kind(b"host:") {
            return source.host(tokens);
        }
        if tokens.at_kind(b"nat:") {
            return source.nat(tokens);
        }
        let idle = source.idle(tokens)?;
        Ok(NetPart::Idle(idle))
    }
}

impl<'a> Part<'a> for VirtPart<'a> {
    ghost Plain = { VirtItem };

    ghost reads = { read_virt_item };

    ghost is = { IsVirtItem };

    fn part(source: Source<'a>, tokens: &mut Cursor<'a, '_>) -> Result<Self, Stop> {
        if tokens.at_key(b"ip") {
            let word = source.setting(tokens, b"ip", Form::Address)?;
            return Ok(VirtPart::Ip(word));
        }
        if tokens.at_key(b"type") {
            let word = source.setting(tokens, b"type", Form::Any)?;
            return Ok(VirtPart::Kind(word));
        }
        let number = source.setting(tokens, b"id", Form::Number)?;
        Ok(VirtPart::Id(number))
    }
}

impl<'a> Part<'a> for IfPart<'a> {
    ghost Plain = { IfaceItem };

    ghost reads = { read_iface_item };

    ghost is = { IsIfaceItem };

    fn part(source: Source<'a>, tokens: &mut Cursor<'a, '_>) -> Result<Self, Stop> {
        if tokens.at_key(b"ip") {
            let word = source.setting(tokens, b"ip", Form::Address)?;
            return Ok(IfPart::Ip(word));
        }
        if tokens.at_key(b"hardware") {
            let word = source.setting(tokens, b"hardware", Form::Any)?;
            return Ok(IfPart::Hardware(word));
        }
        if tokens.at_key(b"bind_nat") {
            return source.bind_nat(tokens);
        }
        if tokens.at_key(b"virtual") {
            return source.shared(tokens);
        }
        let idle = source.idle(tokens)?;
        Ok(IfPart::Idle(idle))
    }
}

impl<'a> Part<'a> for RoutPart<'a> {
    ghost Plain = { RouterItem };

    ghost reads = { read_router_item };

    ghost is = { IsRouterItem };

    fn part(source: Source<'a>, tokens: &mut Cursor<'a, '_>) -> Result<Self, Stop> {
        if tokens.at_key(b"managed") {
            return source.managed(tokens);
        }
        if tokens.at_key(b"model") {
            let word = source.setting(tokens, b"model", Form::Any)?;
            return Ok(RoutPart::Model(word));
        }
        if tokens.at_key(b"routing") {
            let word = source.setting(tokens, b"routing", Form::Routing)?;
            return Ok(RoutPart::Routing(word));
        }
        if tokens.at_kind(b"interface:") {
            return source.iface(tokens);
        }
        let idle = source.idle(tokens)?;
        Ok(RoutPart::Idle(idle))
    }
}

impl<'a> Part<'a> for AreaPart<'a> {
    ghost Plain = { AreaItem };

    ghost reads = { read_area_item };

    ghost is = { IsAreaItem };

    fn part(source: Source<'a>, tokens: &mut Cursor<'a, '_>) -> Result<Self, Stop> {
        if tokens.at_key(b"anchor") {
            let net = source.network_of(tokens, b"anchor")?;
            return Ok(AreaPart::Anchor(net));
        }
        if tokens.at_key(b"border") {
            return source.border(tokens);
        }
        let idle = source.idle(tokens)?;
        Ok(AreaPart::Idle(idle))
    }
}

impl<'a> Part<'a> for AnyPart<'a> {
    ghost Plain = { AnyItem };

    ghost reads = { read_any_item };

    ghost is = { IsAnyItem };

    fn part(source: Source<'a>, tokens: &mut Cursor<'a, '_>) -> Result<Self, Stop> {
        if tokens.at_key(b"link") {
            let net = source.network_of(tokens, b"link")?;
            return Ok(AnyPart::Link(net));
        }
        if tokens.at_key(b"ip") {
            let word = source.setting(tokens, b"ip", Form::Prefix)?;
            return Ok(AnyPart::Ip(word));
        }
        let idle = source.idle(tokens)?;
        Ok(AnyPart::Idle(idle))
    }
}
