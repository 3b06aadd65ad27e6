ghost use Rattle.std.specs.Prelude.{◌≡◌, Some, None, IfOk, IfErr};
ghost use Rattle.policy_decls.specs.Names.{declared_names};
ghost use Rattle.policy_decls.specs.Faults.{name_twice, fault_of};
ghost use Rattle.policy_names.specs.Seen.{decls_of};
ghost use Rattle.topology.specs.First.{IsRefusalOf};

use crate::limits::first_limit;
use policy_names::{NameTable, first_unknown, name_table};
use policy_nesting::first_on_circle;
use policy_shapes::first_shape;
use spoc_ast::File;
use spoc_base::{Fault, NoMemory, Refusal};
use std::alloc::Global;

/// The table of the names of declarations without a fault; or their first fault, or want of memory.
pub(crate) fn names_of<'a>(alloc: Global, files: &[File<'a>]) -> Result<NameTable<'a>, Refusal>
    ensures table { IfOk result (λ table. table ≡ declared_names (decls_of files.now)) }
    ensures faultless { IfOk result (λ _. fault_of (decls_of files.now) ≡ None) }
    ensures refused { IfErr result (IsRefusalOf (λ fault. fault_of (decls_of files.now) ≡ Some fault)) }
{
    let table = match name_table(alloc, files)? {
        Ok(table) => table,
        Err(name) => return Err(Refusal::Policy(Fault::Twice { name })),
    };
    match further_fault(alloc, &table, files)? {
        Some(fault) => Err(Refusal::Policy(fault)),
        None => Ok(table),
    }
}

// The first fault of declarations of which no two give one name.
fn further_fault<'a>(
    alloc: Global,
    table: &NameTable<'a>,
    files: &[File<'a>],
) -> Result<Option<Fault>, NoMemory>
    requires named { table.now ≡ declared_names (decls_of files.now) }
    requires once { name_twice (decls_of files.now) ≡ None }
    ensures { IfOk result (λ found. found ≡ fault_of (decls_of files.now)) }
{
    if let Some(name) = first_unknown(alloc, table, files)? {
        return Ok(Some(Fault::Unknown { name }));
    }
    if let Some(name) = first_on_circle(alloc, table, files)? {
        return Ok(Some(Fault::Circle { name }));
    }
    if let Some((k, name)) = first_shape(alloc, table, files)? {
        return Ok(Some(Fault::Shape { k, name }));
    }
    match first_limit(alloc, table, files)? {
        Some(what) => Ok(Some(Fault::Limit { what })),
        None => Ok(None),
    }
}
