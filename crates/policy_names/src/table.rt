ghost use Rattle.std.specs.Prelude.{◌≡◌, not, length, position, Some, None, IfOk, IfErr};
ghost use Rattle.spoc_base.specs.declared.place.Named.{Named};
ghost use Rattle.policy_decls.specs.Names.{declared_names};
ghost use Rattle.policy_decls.specs.Uses.{names_it, is_unknown};
ghost use Rattle.policy_decls.specs.Faults.{name_twice};
ghost use Rattle.policy_names.specs.Seen.{kind_seen, mention_seen, decls_of};
ghost use Rattle.policy_names.specs.Tables.{numbered};

use crate::collect::declared;
use crate::mention::{Mention, NameKind};
use crate::tables::{Tables, tables_of};
use spoc_ast::File;
use spoc_base::{Named, NoMemory};
use std::alloc::Global;
use std::marker::Model;

/// The declared names of a policy, those of each kind numbered from 0 in the order of their
/// declarations. Contracts see the list of all names.
#[derive(Drop)]
pub struct NameTable<'a> {
    names: Vec<Mention<'a>>,
    tables: Tables<'a>,
}

impl<'a> Model for NameTable<'a> {
    ghost use Rattle.std.specs.Prelude.{List, map};
    ghost use Rattle.policy_decls.specs.Names.{Mention as Plain};
    ghost use Rattle.policy_names.specs.Seen.{mention_seen};
    ghost use Rattle.policy_names.specs.Tables.{IsTable};

    ghost Value = { List Plain };

    ghost view = { λ t. map mention_seen t.names.items };

    ghost invariant = { λ t. IsTable (map mention_seen t.names.items) t.tables.kinds.items t.tables.tags };
}

/// The table of the names that the declarations of the files give. `Ok(Err(name))` is the first
/// name that is declared a second time, where one is; tags only within one network, and interfaces
/// by router and network. An error comes from want of memory alone, also where there are 2^32
/// names.
pub fn name_table<'a>(
    alloc: Global,
    files: &[File<'a>],
) -> Result<Result<NameTable<'a>, Named>, NoMemory>
    ensures table { IfOk result (λ found. IfOk found (λ table. table ≡ declared_names (decls_of files.now))) }
    ensures differ { IfOk result (λ found. IfOk found (λ _. name_twice (decls_of files.now) ≡ None)) }
    ensures twice { IfOk result (λ found. IfErr found (λ name. name_twice (decls_of files.now) ≡ Some name)) }
{
    let names = declared(alloc, files)?;
    if u32::try_from(names.len()).is_err() {
        return Err(NoMemory);
    }
    match tables_of(alloc, &names)? {
        Ok(tables) => Ok(Ok(NameTable { names, tables })),
        Err(name) => Ok(Err(name)),
    }
}

impl<'a> NameTable<'a> {
    /// The number of a name among those of its kind, None where it isn't declared. An interface
    /// has its router for an owner and its network for a text; a tag has the number of its first
    /// declaration, whatever its owner; of any other name the owner is empty.
    pub fn number(&self, kind: NameKind, owner: &[u8], text: &[u8]) -> Option<u32>
        ensures { (shown : Named) → result ≡ position (names_it (record { kind = kind_seen kind; owner = owner.now; text = text.now; shown = shown })) (numbered self.now (kind_seen kind)) }
    {
        match self.tables.find(kind, owner, text) {
            Some(number) => Some(number as u32),
            None => None,
        }
    }

    /// Whether a name that is used is declared.
    pub(crate) fn knows(&self, name: &Mention<'_>) -> bool
        ensures { result ≡ not (is_unknown self.now (mention_seen name.now)) }
    {
        self.number(name.kind, name.owner, name.text).is_some()
    }

    /// How many names of a kind there are, of tags only one for each text.
    pub fn count(&self, kind: NameKind) -> u32
        ensures { result ≡ length (numbered self.now (kind_seen kind)) }
    {
        self.tables.len(kind) as u32
    }
}
