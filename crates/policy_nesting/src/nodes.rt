ghost use Rattle.std.specs.Prelude.{◌≡◌, true, ◌∷◌, ◌++◌, [], map, filter, None, IfOk, OnOk};
ghost use Rattle.spoc_ast.specs.Seen.{file_seen, decl_seen};
ghost use Rattle.policy_decls.specs.Names as plain;
ghost use Rattle.policy_decls.specs.Said.{number_among};
ghost use Rattle.policy_names.specs.Seen.{kind_seen, mention_seen, decls_of, GrowsBy};
ghost use Rattle.policy_decls.specs.Nesting.{is_nesting, nesting_names};
ghost use Rattle.policy_names.specs.Tables.{of_kind};
ghost use Rattle.policy_nesting.specs.Nodes.{kind_of, is_node, used_of};

use policy_names::{Mention, NameKind, NameTable, names_given, names_used};
use spoc_ast::{Decl, File};
use spoc_base::{NoMemory, Row};
use std::alloc::Global;

/// Which groups: those of objects, or those of protocols.
#[derive(Clone, Copy)]
pub(crate) enum Nesting {
    Objects,
    Protocols,
}

impl Nesting {
    /// The kind of their names.
    pub(crate) fn kind(self) -> NameKind
        ensures { kind_seen result ≡ kind_of self }
    {
        match self {
            Nesting::Objects => NameKind::Group,
            Nesting::Protocols => NameKind::ProtocolGroup,
        }
    }
}

/// Whether the declaration is that of a group of the kind.
pub(crate) fn declares(nesting: Nesting, decl: &Decl<'_>) -> bool
    ensures { result ≡ is_node nesting (decl_seen decl.now) }
{
    match decl {
        Decl::Group { .. } => matches!(nesting, Nesting::Objects),
        Decl::ProtocolGroup { .. } => matches!(nesting, Nesting::Protocols),
        _ => false,
    }
}

/// The groups and protocol groups of a policy, in the order of their declarations.
pub(crate) fn nodes<'a>(alloc: Global, files: &[File<'a>]) -> Result<Vec<Mention<'a>>, NoMemory>
    ensures { IfOk result (λ names. map mention_seen names.items ≡ nesting_names (decls_of files.now)) }
{
    let mut found = Vec::new(alloc);
    for file in files {
        add_nodes(alloc, file, &mut found)?;
    }
    Ok(found)
}

fn add_nodes<'a>(
    alloc: Global,
    file: &File<'a>,
    found: &mut Vec<Mention<'a>>,
) -> Result<(), NoMemory>
    ensures { OnOk result (GrowsBy (nesting_names (file_seen file.now)) found.old.items found.new.items) }
{
    for decl in file.decls {
        add_node(alloc, decl, found)?;
    }
    Ok(())
}

fn add_node<'a>(
    alloc: Global,
    decl: &Decl<'a>,
    found: &mut Vec<Mention<'a>>,
) -> Result<(), NoMemory>
    ensures { OnOk result (GrowsBy (filter is_nesting (plain.names_in (decl_seen decl.now))) found.old.items found.new.items) }
{
    if declares(Nesting::Objects, decl) {
        let names = names_given(alloc, decl)?;
        return append(&names, found);
    }
    if declares(Nesting::Protocols, decl) {
        let names = names_given(alloc, decl)?;
        return append(&names, found);
    }
    Ok(())
}

// Puts these names behind the others.
fn append<'a>(names: &[Mention<'a>], found: &mut Vec<Mention<'a>>) -> Result<(), NoMemory>
    ensures { OnOk result (GrowsBy (map mention_seen names.now) found.old.items found.new.items) }
{
    for name in names {
        found.push(*name)?;
    }
    Ok(())
}

/// The numbers of the groups of the kind that a declaration names, as they stand.
pub(crate) fn row_of(
    alloc: Global,
    table: &NameTable<'_>,
    nesting: Nesting,
    decl: &Decl<'_>,
) -> Result<Row<u32>, NoMemory>
    ensures { IfOk result (λ row. row ≡ map (number_among (of_kind table.now (kind_of nesting))) (used_of nesting (decl_seen decl.now))) }
{
    let names = names_used(alloc, decl)?;
    let mut numbers = Vec::new(alloc);
    for name in &names {
        add_number(table, nesting, name, &mut numbers)?;
    }
    Ok(Row::of(numbers))
}

fn add_number(
    table: &NameTable<'_>,
    nesting: Nesting,
    name: &Mention<'_>,
    numbers: &mut Vec<u32>,
) -> Result<(), NoMemory>
    ensures { OnOk result (numbers.new.items ≡ numbers.old.items ++ map (number_among (of_kind table.now (kind_of nesting))) (filter (λ used. plain.same_kind used.kind (kind_of nesting)) (mention_seen name.now ∷ []))) }
{
    if name.kind.index() != nesting.kind().index() {
        return Ok(());
    }
    let number = table.number(name.kind, name.owner, name.text).unwrap_or(0);
    numbers.push(number)?;
    Ok(())
}
