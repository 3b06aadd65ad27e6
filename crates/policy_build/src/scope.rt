ghost use Rattle.std.specs.Prelude.{◌≡◌, false, map, position};
ghost use Rattle.spoc_ast.specs.Seen.{decl_seen};
ghost use Rattle.policy_decls.specs.Names.{declared_names};

use bumpalo::Bump;
use policy_names::{NameKind, NameTable};
use spoc_ast::{Decl, PortName, Word};
use spoc_base::{Kind, Named, Source};
use std::alloc::Global;

/// What each part of a policy is built from: the arena in which it will lie, the declarations, the
/// table of their names, and the sources in which they stand.
#[derive(Clone, Copy)]
pub(crate) struct Scope<'a, 't> {
    pub(crate) alloc: Global,
    pub(crate) arena: &'a Bump,
    pub(crate) table: &'t NameTable<'a>,
    pub(crate) sources: &'a [Source],
    pub(crate) decls: &'t [Decl<'a>],
    pub(crate) ghost named: { table.now ≡ declared_names (map decl_seen decls.now) },
}

impl<'a, 't> Scope<'a, 't> {
    ghost use Rattle.spoc_ast.specs.Seen.{word_seen, port_seen};
    ghost use Rattle.policy_decls.specs.Names.{mention};
    ghost use Rattle.policy_decls.specs.Uses.{is_tag, names_it};
    ghost use Rattle.policy_decls.specs.Said.{names_of, number_of_name, number_of_tag, number_of_port};
    ghost use Rattle.policy_names.specs.Seen.{kind_seen};
    ghost use Rattle.policy_build.specs.Views.{decls_of, sources_in};
    ghost use Rattle.topology.specs.Texts.{name_at, IsCalled, IsIfaceCalled};
    ghost use Rattle.policy_build.specs.Words.{IsWordOf};

    /// The number of a name among those of its kind, None where it isn't declared.
    pub(crate) fn place(self, kind: NameKind, name: Word<'a>) -> Option<u32>
        requires { is_tag (kind_seen kind) ≡ false }
        ensures { result ≡ position (names_it (mention (kind_seen kind) (word_seen name.entry))) (names_of (decls_of self.entry) (kind_seen kind)) }
    {
        self.table.number(kind, b"", name.text)
    }

    /// The number of a name among those of its kind, or 0 where it isn't declared.
    pub(crate) fn number(self, kind: NameKind, name: Word<'a>) -> u32
        requires { is_tag (kind_seen kind) ≡ false }
        ensures { result ≡ number_of_name (decls_of self.entry) (kind_seen kind) (word_seen name.entry) }
    {
        self.place(kind, name).unwrap_or(0)
    }

    /// The number of a tag, or 0 where it isn't declared.
    pub(crate) fn tag(self, name: Word<'a>) -> u32
        ensures { result ≡ number_of_tag (decls_of self.entry) (word_seen name.entry) }
    {
        self.table
            .number(NameKind::Tag, b"", name.text)
            .unwrap_or(0)
    }

    /// The number of an interface, or 0 where it isn't declared.
    pub(crate) fn port(self, port: PortName<'a>) -> u32
        ensures { result ≡ number_of_port (decls_of self.entry) (port_seen port.entry) }
    {
        self.table
            .number(NameKind::Iface, port.router.text, port.net.text)
            .unwrap_or(0)
    }

    /// How a declared thing is printed.
    #[tactic(auto, using(crate::proofs::Named::name_written))]
    pub(crate) fn named(self, kind: Kind, name: Word<'a>) -> Named
        requires { IsWordOf (sources_in self) (word_seen name) }
        ensures text { name_at (sources_in self.entry) result ≡ name.entry.text.now }
        ensures written { IsCalled kind (sources_in self.entry) result }
    {
        Named::Plain(kind, name.span)
    }

    /// How an interface is printed.
    #[tactic(auto, using(crate::proofs::Named::port_written))]
    pub(crate) fn port_named(self, port: PortName<'a>) -> Named
        requires router { IsWordOf (sources_in self) (word_seen port.router) }
        requires net { IsWordOf (sources_in self) (word_seen port.net) }
        ensures { IsIfaceCalled (sources_in self.entry) port.entry.router.text.now port.entry.net.text.now result }
    {
        Named::Iface(port.router.span, port.net.span)
    }
}
