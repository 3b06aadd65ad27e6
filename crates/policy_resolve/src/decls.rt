ghost use Rattle.std.specs.Prelude.{◌≡◌, ◌++◌, map, IfOk, OnOk};
ghost use Rattle.spoc_ast.specs.Seen.{decl_seen, file_seen};
ghost use Rattle.policy_names.specs.Seen.{decls_of};

use spoc_ast::{Decl, File};
use spoc_base::NoMemory;
use std::alloc::Global;

/// The declarations of files, those of the first file first.
pub(crate) fn all_decls<'a>(alloc: Global, files: &[File<'a>]) -> Result<Vec<Decl<'a>>, NoMemory>
    ensures { IfOk result (λ found. map decl_seen found.items ≡ decls_of files.now) }
{
    let mut found = Vec::new(alloc);
    for file in files {
        add_decls(file, &mut found)?;
    }
    Ok(found)
}

fn add_decls<'a>(file: &File<'a>, found: &mut Vec<Decl<'a>>) -> Result<(), NoMemory>
    ensures { OnOk result (map decl_seen found.new.items ≡ map decl_seen found.old.items ++ file_seen file.now) }
{
    for decl in file.decls {
        found.push(*decl)?;
    }
    Ok(())
}
