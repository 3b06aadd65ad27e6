ghost use Rattle.std.specs.Prelude.{◌≡◌};
ghost use Rattle.spoc_ast.specs.Seen.{word_seen, port_seen};
ghost use Rattle.policy_decls.specs.Names.{number_of_kind, printed_kind, mention, mention_in, mention_port};
ghost use Rattle.policy_names.specs.Seen.{kind_seen, mention_seen};

use spoc_ast::{PortName, Word};
use spoc_base::{Kind, Named};

/// What a name names.
#[derive(Clone, Copy, Debug, PartialEq, Eq)]
pub enum NameKind {
    Network,
    Host,
    /// A tag by which translations are asked for.
    Tag,
    Router,
    /// An interface of a router at a network.
    Iface,
    Group,
    Area,
    Aggregate,
    Protocol,
    ProtocolGroup,
    Restriction,
    Service,
}

impl NameKind {
    /// The place of the kind in the list of kinds, from 0 to 11.
    pub fn index(self) -> usize
        ensures { result ≡ number_of_kind (kind_seen self) }
    {
        match self {
            NameKind::Network => 0,
            NameKind::Host => 1,
            NameKind::Tag => 2,
            NameKind::Router => 3,
            NameKind::Iface => 4,
            NameKind::Group => 5,
            NameKind::Area => 6,
            NameKind::Aggregate => 7,
            NameKind::Protocol => 8,
            NameKind::ProtocolGroup => 9,
            NameKind::Restriction => 10,
            NameKind::Service => 11,
        }
    }

    /// The kind that is printed before a name of this kind.
    pub fn printed(self) -> Kind
        ensures { result ≡ printed_kind (kind_seen self) }
    {
        match self {
            NameKind::Network | NameKind::Iface => Kind::Network,
            NameKind::Host => Kind::Host,
            NameKind::Tag => Kind::Tag,
            NameKind::Router => Kind::Router,
            NameKind::Group => Kind::Group,
            NameKind::Area => Kind::Area,
            NameKind::Aggregate => Kind::Aggregate,
            NameKind::Protocol => Kind::Protocol,
            NameKind::ProtocolGroup => Kind::ProtocolGroup,
            NameKind::Restriction => Kind::Restriction,
            NameKind::Service => Kind::Service,
        }
    }
}

/// A name where it is declared or used, and how it is printed. An interface's owner is its router
/// and its text its network; a tag that is declared has its network for an owner; of any other
/// name the owner is empty.
#[derive(Clone, Copy)]
pub struct Mention<'a> {
    pub kind: NameKind,
    pub owner: &'a [u8],
    pub text: &'a [u8],
    pub shown: Named,
}

impl<'a> Mention<'a> {
    /// A name without an owner.
    pub fn plain(kind: NameKind, name: Word<'a>) -> Mention<'a>
        ensures { mention_seen result ≡ mention (kind_seen kind) (word_seen name.entry) }
    {
        Mention {
            kind,
            owner: b"",
            text: name.text,
            shown: Named::Plain(kind.printed(), name.span),
        }
    }

    /// A name that is declared within another.
    pub fn within(kind: NameKind, owner: Word<'a>, name: Word<'a>) -> Mention<'a>
        ensures { mention_seen result ≡ mention_in (kind_seen kind) (word_seen owner.entry) (word_seen name.entry) }
    {
        Mention {
            kind,
            owner: owner.text,
            text: name.text,
            shown: Named::Plain(kind.printed(), name.span),
        }
    }

    /// The interface of a router at a network.
    pub fn port(port: PortName<'a>) -> Mention<'a>
        ensures { mention_seen result ≡ mention_port (port_seen port.entry) }
    {
        Mention {
            kind: NameKind::Iface,
            owner: port.router.text,
            text: port.net.text,
            shown: Named::Iface(port.router.span, port.net.span),
        }
    }
}
