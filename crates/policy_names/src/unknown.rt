ghost use Rattle.std.specs.Prelude.{◌≡◌, map, filter, IfOk};
ghost use Rattle.policy_decls.specs.Names.{declared_names, shown_at};
ghost use Rattle.policy_decls.specs.Uses.{is_unknown};
ghost use Rattle.policy_decls.specs.Faults.{name_unknown};
ghost use Rattle.policy_names.specs.Seen.{mention_seen, decls_of};

use crate::collect::used;
use crate::mention::Mention;
use crate::table::NameTable;
use spoc_ast::File;
use spoc_base::{Named, NoMemory};
use std::alloc::Global;

/// The first name that the declarations of the files use and that isn't declared, by the table of
/// the names that they declare. An error comes from want of memory alone.
pub fn first_unknown(
    alloc: Global,
    table: &NameTable<'_>,
    files: &[File<'_>],
) -> Result<Option<Named>, NoMemory>
    requires { table.now ≡ declared_names (decls_of files.now) }
    ensures { IfOk result (λ found. found ≡ name_unknown (decls_of files.now)) }
{
    let names = used(alloc, files)?;
    Ok(unknown_among(table, &names))
}

fn unknown_among(table: &NameTable<'_>, names: &[Mention<'_>]) -> Option<Named>
    ensures { result ≡ shown_at (filter (is_unknown table.now) (map mention_seen names.now)) 0 }
{
    for name in names {
        if !table.knows(name) {
            return Some(name.shown);
        }
    }
    None
}
