ghost use Rattle.std.specs.Prelude.{◌≡◌, ℕ, List, ◌<◌, ◌≤◌, true, length, map, filter, None, IfOk};
ghost use Rattle.std.specs.List.{list_any};
ghost use Rattle.spoc_ast.specs.Written.{DeclText};
ghost use Rattle.policy_decls.specs.Names.{GroupName, ProtocolGroupName, declared_names};
ghost use Rattle.policy_decls.specs.Uses.{names_it};
ghost use Rattle.policy_decls.specs.Nesting.{is_nesting, is_on_circle};
ghost use Rattle.policy_decls.specs.Faults.{name_twice, name_unknown, name_on_circle};
ghost use Rattle.policy_names.specs.Seen.{kind_seen, mention_seen, decls_of};
ghost use Rattle.policy_names.specs.Tables.{of_kind, numbered};
ghost use Rattle.policy_nesting.specs.declared.nodes.Nesting.{Nesting};
ghost use Rattle.policy_nesting.specs.declared.nodes.Nesting.TheVariants.{Objects, Protocols};
ghost use Rattle.policy_nesting.specs.Graph.{leads, AreNodes, AreChains};
ghost use Rattle.policy_nesting.specs.Nodes.{kind_of, AreNamed, IsGraph};

use crate::depth::TOO_DEEP;
use crate::graph::flag;
use crate::group_graph::{Graph, graph_of};
use crate::nodes::{Nesting, nodes};
use crate::search::returns;
use policy_names::{Mention, NameKind, NameTable};
use spoc_ast::File;
use spoc_base::{Named, NoMemory};
use std::alloc::Global;

/// The first group or protocol group, in the order of their declarations, that names itself, or one
/// that does, and so on. An error comes from want of memory alone.
///
/// Time is linear in the policy where groups nest less deep than they may; where they don't, the
/// policy is refused, and each group where so long a chain begins is searched for a way back.
pub fn first_on_circle(
    alloc: Global,
    table: &NameTable<'_>,
    files: &[File<'_>],
) -> Result<Option<Named>, NoMemory>
    requires table { table.now ≡ declared_names (decls_of files.now) }
    requires once { name_twice (decls_of files.now) ≡ None }
    requires known { name_unknown (decls_of files.now) ≡ None }
    ensures { IfOk result (λ found. found ≡ name_on_circle (decls_of files.now)) }
{
    first_of(alloc, table, TOO_DEEP, files)
}

// The first group that lies on a circle; only those are searched where a chain of `depth` groups
// begins.
fn first_of(
    alloc: Global,
    table: &NameTable<'_>,
    depth: u32,
    files: &[File<'_>],
) -> Result<Option<Named>, NoMemory>
    requires depth { 0 < depth }
    requires table { table.now ≡ declared_names (decls_of files.now) }
    requires named { AreNamed (decls_of files.now) }
    ensures { IfOk result (λ found. found ≡ name_on_circle (decls_of files.now)) }
{
    let objects = graph_of(alloc, table, Nesting::Objects, depth, files)?;
    let protocols = graph_of(alloc, table, Nesting::Protocols, depth, files)?;
    let names = nodes(alloc, files)?;
    for name in &names {
        if on_circle(alloc, table, &objects, &protocols, name)? {
            return Ok(Some(name.shown));
        }
    }
    Ok(None)
}

// Whether a group or protocol group lies on a circle, by the two graphs.
fn on_circle(
    alloc: Global,
    table: &NameTable<'_>,
    objects: &Graph,
    protocols: &Graph,
    node: &Mention<'_>,
) -> Result<bool, NoMemory>
    requires objects { AreNodes objects.now.rows.items }
    requires all_objects { length objects.now.rows.items ≡ length (of_kind table.now GroupName) }
    requires protocols { AreNodes protocols.now.rows.items }
    requires all_protocols { length protocols.now.rows.items ≡ length (of_kind table.now ProtocolGroupName) }
    ensures { IfOk result (λ on. (decls : List DeclText) (depth : ℕ) → table.now ≡ declared_names decls → AreNamed decls → IsGraph decls Objects depth objects.now.rows.items objects.now.deep.items → IsGraph decls Protocols depth protocols.now.rows.items protocols.now.deep.items → is_nesting (mention_seen node.now) ≡ true → list_any (names_it (mention_seen node.now)) table.now ≡ true → on ≡ is_on_circle decls (mention_seen node.now)) }
{
    match node.kind {
        NameKind::Group => lies_on_circle(alloc, table, objects, node),
        NameKind::ProtocolGroup => lies_on_circle(alloc, table, protocols, node),
        _ => Ok(false),
    }
}

// Whether a group lies on a circle, by the graph of the groups of its kind.
fn lies_on_circle(
    alloc: Global,
    table: &NameTable<'_>,
    graph: &Graph,
    node: &Mention<'_>,
) -> Result<bool, NoMemory>
    requires nodes { AreNodes graph.now.rows.items }
    requires long { length graph.now.rows.items ≡ length (numbered table.now (kind_seen node.now.kind)) }
    ensures { IfOk result (λ on. (decls : List DeclText) (nesting : Nesting) (depth : ℕ) → table.now ≡ declared_names decls → AreNamed decls → IsGraph decls nesting depth graph.now.rows.items graph.now.deep.items → kind_seen node.now.kind ≡ kind_of nesting → list_any (names_it (mention_seen node.now)) table.now ≡ true → on ≡ is_on_circle decls (mention_seen node.now)) }
{
    match table.number(node.kind, node.owner, node.text) {
        Some(number) => returns_to(alloc, graph, number),
        None => Ok(false),
    }
}

// Whether a node leads to itself. Only one where a long chain begins is searched: on a circle there
// is no end of nodes of which each names the next.
fn returns_to(alloc: Global, graph: &Graph, node: u32) -> Result<bool, NoMemory>
    requires nodes { AreNodes graph.now.rows.items }
    requires node { node < length graph.now.rows.items }
    ensures { IfOk result (λ back. (depth m : ℕ) → AreChains graph.now.rows.items depth graph.now.deep.items → length graph.now.rows.items ≤ m → back ≡ leads graph.now.rows.items m node node) }
{
    if !flag(&graph.deep, node) {
        return Ok(false);
    }
    returns(alloc, &graph.rows, node)
}
