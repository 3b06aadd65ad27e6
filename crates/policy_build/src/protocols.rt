ghost use Rattle.std.specs.Prelude.{◌≡◌, map, option_map, IfOk, OnOk, ◌++◌, [], ◌∷◌};
ghost use Rattle.spoc_ast.specs.Written.{PrtSimple};
ghost use Rattle.spoc_ast.specs.Seen.{word_seen, decl_seen, prt_seen, simple_seen};
ghost use Rattle.policy_decls.specs.Lookup.{first_given};
ghost use Rattle.policy_decls.specs.Said.{protocol_called, protocol_group_called};
ghost use Rattle.policy_build.specs.Views.{decls_of};
ghost use Rattle.policy_build.specs.Protocols.{protocols_in, groups_in, simples_seen, members_seen};

use crate::scope::Scope;
use policy_names::NameKind;
use spoc_ast::{Decl, Prt, Simple, Word};
use spoc_base::NoMemory;

/// The protocols and the protocol groups that are declared, each kind in the order of its numbers.
#[derive(Drop)]
pub(crate) struct Protocols<'a> {
    pub(crate) simples: Vec<Simple<'a>>,
    pub(crate) groups: Vec<&'a [Prt<'a>]>,
}

/// The protocols that are declared.
pub(crate) fn declared_protocols<'a>(scope: Scope<'a, '_>) -> Result<Protocols<'a>, NoMemory>
    ensures simples { IfOk result (λ found. simples_seen found.simples.items ≡ protocols_in (decls_of scope.entry)) }
    ensures groups { IfOk result (λ found. members_seen found.groups.items ≡ groups_in (decls_of scope.entry)) }
{
    let mut found = Protocols {
        simples: Vec::new(scope.alloc),
        groups: Vec::new(scope.alloc),
    };
    for decl in scope.decls {
        found.note(decl)?;
    }
    Ok(found)
}

impl<'a> Protocols<'a> {
    // Adds what a declaration declares of them.
    fn note(&mut self, decl: &Decl<'a>) -> Result<(), NoMemory>
        ensures simples { OnOk result (simples_seen self.new.simples.items ≡ simples_seen self.old.simples.items ++ protocols_in (decl_seen decl.now ∷ [])) }
        ensures groups { OnOk result (members_seen self.new.groups.items ≡ members_seen self.old.groups.items ++ groups_in (decl_seen decl.now ∷ [])) }
    {
        match decl {
            Decl::Protocol { simple, .. } => self.simples.push(*simple)?,
            Decl::ProtocolGroup { prts, .. } => self.groups.push(prts)?,
            _ => {}
        }
        Ok(())
    }

    /// What is declared as the protocol of a name.
    pub(crate) fn simple(&self, scope: Scope<'a, '_>, name: Word<'a>) -> Option<Simple<'a>>
        requires { simples_seen self.now.simples.items ≡ protocols_in (decls_of scope) }
        ensures { option_map (λ simple. PrtSimple (simple_seen simple) ∷ []) result ≡ first_given (protocol_called (word_seen name.entry).text) (decls_of scope.entry) }
    {
        let number = scope.place(NameKind::Protocol, name)?;
        self.simples.get(number as usize).copied()
    }

    /// The members of the protocol group of a name.
    pub(crate) fn members(&self, scope: Scope<'a, '_>, name: Word<'a>) -> Option<&'a [Prt<'a>]>
        requires { members_seen self.now.groups.items ≡ groups_in (decls_of scope) }
        ensures { option_map (λ prts. map prt_seen prts.now) result ≡ first_given (protocol_group_called (word_seen name.entry).text) (decls_of scope.entry) }
    {
        let number = scope.place(NameKind::ProtocolGroup, name)?;
        self.groups.get(number as usize).copied()
    }
}
