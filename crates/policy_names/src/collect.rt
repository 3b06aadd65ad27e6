ghost use Rattle.std.specs.Prelude.{◌≡◌, map, IfOk, OnOk};
ghost use Rattle.spoc_ast.specs.Seen.{file_seen};
ghost use Rattle.policy_decls.specs.Names.{declared_names};
ghost use Rattle.policy_decls.specs.Uses.{used_names};
ghost use Rattle.policy_names.specs.Seen.{mention_seen, decls_of, GrowsBy};

use crate::mention::Mention;
use crate::names::add_names;
use crate::uses::add_uses;
use spoc_ast::File;
use spoc_base::NoMemory;
use std::alloc::Global;

/// The names that the declarations of files give, in their order.
pub(crate) fn declared<'a>(alloc: Global, files: &[File<'a>]) -> Result<Vec<Mention<'a>>, NoMemory>
    ensures { IfOk result (λ names. map mention_seen names.items ≡ declared_names (decls_of files.now)) }
{
    let mut found = Vec::new(alloc);
    for file in files {
        add_file(file, &mut found)?;
    }
    Ok(found)
}

fn add_file<'a>(file: &File<'a>, found: &mut Vec<Mention<'a>>) -> Result<(), NoMemory>
    ensures { OnOk result (GrowsBy (declared_names (file_seen file.now)) found.old.items found.new.items) }
{
    for decl in file.decls {
        add_names(decl, found)?;
    }
    Ok(())
}

/// The names that the declarations of files use, in their order.
pub(crate) fn used<'a>(alloc: Global, files: &[File<'a>]) -> Result<Vec<Mention<'a>>, NoMemory>
    ensures { IfOk result (λ names. map mention_seen names.items ≡ used_names (decls_of files.now)) }
{
    let mut found = Vec::new(alloc);
    for file in files {
        add_file_uses(file, &mut found)?;
    }
    Ok(found)
}

fn add_file_uses<'a>(file: &File<'a>, found: &mut Vec<Mention<'a>>) -> Result<(), NoMemory>
    ensures { OnOk result (GrowsBy (used_names (file_seen file.now)) found.old.items found.new.items) }
{
    for decl in file.decls {
        add_uses(decl, found)?;
    }
    Ok(())
}
