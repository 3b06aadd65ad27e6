ghost use Rattle.std.specs.Prelude.{◌≡◌, ◌<◌, ◌++◌, flat_map, length, map, IfOk, OnOk};
ghost use Rattle.spoc_ast.specs.Seen.{file_seen, decl_seen};
ghost use Rattle.policy_decls.specs.Names.{declared_names};
ghost use Rattle.policy_names.specs.Seen.{decls_of};
ghost use Rattle.policy_names.specs.Tables.{of_kind};
ghost use Rattle.policy_nesting.specs.Graph.{AreNodes};
ghost use Rattle.policy_nesting.specs.Nodes.{kind_of, row_in, nodes_of, AreNamed, IsGraph};

use crate::graph::chains;
use crate::nodes::{Nesting, declares, row_of};
use policy_names::NameTable;
use spoc_ast::{Decl, File};
use spoc_base::{NoMemory, Row};
use std::alloc::Global;

/// The groups of a policy, or its protocol groups, as nodes numbered in the order of their
/// declarations: those that each names, and where a chain of so many begins of which each names
/// the next.
#[derive(Drop)]
pub(crate) struct Graph {
    pub(crate) rows: Vec<Row<u32>>,
    pub(crate) deep: Vec<bool>,
}

/// The graph of the groups of the kind, with chains of `depth` nodes.
pub(crate) fn graph_of(
    alloc: Global,
    table: &NameTable<'_>,
    nesting: Nesting,
    depth: u32,
    files: &[File<'_>],
) -> Result<Graph, NoMemory>
    requires depth { 0 < depth }
    requires table { table.now ≡ declared_names (decls_of files.now) }
    requires named { AreNamed (decls_of files.now) }
    ensures graph { IfOk result (λ graph. IsGraph (decls_of files.now) nesting depth graph.rows.items graph.deep.items) }
    ensures nodes { IfOk result (λ graph. AreNodes graph.rows.items) }
    ensures long { IfOk result (λ graph. length graph.rows.items ≡ length (of_kind table.now (kind_of nesting))) }
{
    let rows = rows_of(alloc, table, nesting, files)?;
    let deep = chains(alloc, &rows, depth)?;
    Ok(Graph { rows, deep })
}

fn rows_of(
    alloc: Global,
    table: &NameTable<'_>,
    nesting: Nesting,
    files: &[File<'_>],
) -> Result<Vec<Row<u32>>, NoMemory>
    requires table { table.now ≡ declared_names (decls_of files.now) }
    requires named { AreNamed (decls_of files.now) }
    ensures rows { IfOk result (λ rows. rows.items ≡ nodes_of (decls_of files.now) nesting) }
    ensures nodes { IfOk result (λ rows. AreNodes rows.items) }
{
    let mut rows = Vec::new(alloc);
    for file in files {
        add_rows(alloc, table, nesting, file, &mut rows)?;
    }
    Ok(rows)
}

fn add_rows(
    alloc: Global,
    table: &NameTable<'_>,
    nesting: Nesting,
    file: &File<'_>,
    rows: &mut Vec<Row<u32>>,
) -> Result<(), NoMemory>
    ensures { OnOk result (rows.new.items ≡ rows.old.items ++ flat_map (row_in table.now nesting) (file_seen file.now)) }
{
    for decl in file.decls {
        add_row(alloc, table, nesting, decl, rows)?;
    }
    Ok(())
}

fn add_row(
    alloc: Global,
    table: &NameTable<'_>,
    nesting: Nesting,
    decl: &Decl<'_>,
    rows: &mut Vec<Row<u32>>,
) -> Result<(), NoMemory>
    ensures { OnOk result (rows.new.items ≡ rows.old.items ++ row_in table.now nesting (decl_seen decl.now)) }
{
    if declares(nesting, decl) {
        rows.push(row_of(alloc, table, nesting, decl)?)?;
    }
    Ok(())
}
