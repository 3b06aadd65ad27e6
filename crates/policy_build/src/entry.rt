ghost use Rattle.std.specs.Prelude.{◌≡◌, ◌<◌, ◌^◌, ◌++◌, None, length, map, IsTrue, IfOk, OnOk};
ghost use Rattle.spoc_ast.specs.Seen.{decl_seen, file_seen};
ghost use Rattle.policy_decls.specs.Names.{declared_names, names_in};
ghost use Rattle.policy_decls.specs.Faults.{fault_of};
ghost use Rattle.policy_decls.specs.Formed.{are_formed};
ghost use Rattle.policy_decls.specs.Spelled.{are_spelled};
ghost use Rattle.policy_decls.specs.Said.{policy_said};
ghost use Rattle.policy_names.specs.Seen.{decls_of, mention_seen};
ghost use Rattle.topology.specs.View.{policy_of, sources_of};
ghost use Rattle.policy_build.specs.Words.{AreWordsOf};
ghost use Rattle.policy_build.specs.Buildable.{IsBuildable};

use crate::policy::policy;
use crate::scope::Scope;
use bumpalo::Bump;
use decl_laws::policies_said_are_sound;
use policy_names::{NameTable, names_given};
use spoc_ast::{Decl, File};
use spoc_base::{NoMemory, Source};
use std::alloc::Global;
use topology::Topo;

/// The policy that the declarations of the files say, in the arena. The table has the names that
/// they declare, they have no fault, their names and hardware are words, and their words stand in
/// the sources. An error comes from want of memory alone, also where 2^32 names are declared, or
/// 264,000,000 protocols and groups of a rule are looked at before 4,000,001 boxes are found.
pub fn build<'a>(
    alloc: Global,
    arena: &'a Bump,
    table: &NameTable<'a>,
    sources: &'a [Source],
    files: &[File<'a>],
) -> Result<Topo<'a>, NoMemory>
    requires named { table.now ≡ declared_names (decls_of files.now) }
    requires faultless { fault_of (decls_of files.now) ≡ None }
    requires formed { IsTrue (are_formed (decls_of files.now)) }
    requires spelled { IsTrue (are_spelled (decls_of files.now)) }
    requires words { AreWordsOf sources.now (decls_of files.now) }
    ensures policy { IfOk result (λ topo. policy_of topo ≡ policy_said (decls_of files.now)) }
    ensures sources { IfOk result (λ topo. sources_of topo ≡ sources.entry.now) }
{
    let decls = all_decls(alloc, files)?;
    build_from(alloc, arena, table, sources, &decls)
}

fn all_decls<'a>(alloc: Global, files: &[File<'a>]) -> Result<Vec<Decl<'a>>, NoMemory>
    ensures { IfOk result (λ decls. map decl_seen decls.items ≡ decls_of files.now) }
{
    let mut decls = Vec::new(alloc);
    for file in files {
        add_decls(file, &mut decls)?;
    }
    Ok(decls)
}

fn add_decls<'a>(file: &File<'a>, decls: &mut Vec<Decl<'a>>) -> Result<(), NoMemory>
    ensures { OnOk result (map decl_seen decls.new.items ≡ map decl_seen decls.old.items ++ file_seen file.now) }
{
    for decl in file.decls {
        let Ok(()) = decls.push(*decl) else {
            return Err(NoMemory);
        };
    }
    Ok(())
}

fn build_from<'a>(
    alloc: Global,
    arena: &'a Bump,
    table: &NameTable<'a>,
    sources: &'a [Source],
    decls: &[Decl<'a>],
) -> Result<Topo<'a>, NoMemory>
    requires { IsBuildable sources.now table.now (map decl_seen decls.now) }
    ensures policy { IfOk result (λ topo. policy_of topo ≡ policy_said (map decl_seen decls.now)) }
    ensures sources { IfOk result (λ topo. sources_of topo ≡ sources.entry.now) }
{
    are_few(alloc, decls)?;
    policies_said_are_sound();
    policy(Scope {
        alloc,
        arena,
        table,
        sources,
        decls,
    })
}

// That the declared names have numbers.
fn are_few(alloc: Global, decls: &[Decl<'_>]) -> Result<(), NoMemory>
    ensures { OnOk result (length (declared_names (map decl_seen decls.now)) < 2 ^ 32) }
{
    let mut count: usize = 0;
    for decl in decls {
        count = count
            .checked_add(count_names(alloc, decl)?)
            .ok_or(NoMemory)?;
    }
    if u32::try_from(count).is_err() {
        return Err(NoMemory);
    }
    Ok(())
}

// How many names a declaration gives.
fn count_names(alloc: Global, decl: &Decl<'_>) -> Result<usize, NoMemory>
    ensures { IfOk result (λ count. count ≡ length (names_in (decl_seen decl.now))) }
{
    let names = names_given(alloc, decl)?;
    Ok(names.len())
}
