ghost use Rattle.std.specs.Prelude.{◌≡◌, map, fold, flat_map, IfOk, OnOk};
ghost use Rattle.std.specs.List.{All};
ghost use Rattle.spoc_ast.specs.Seen.{word_seen, net_part_seen, decl_seen};
ghost use Rattle.policy_decls.specs.Said.{policy_said};
ghost use Rattle.spoc_base.specs.declared.place.Kind.TheVariants as kind;
ghost use Rattle.topology.specs.Texts.{IsCalled};
ghost use Rattle.topology.specs.Seen.{tag_seen};
ghost use Rattle.policy_build.specs.Views.{decls_of, sources_in};
ghost use Rattle.policy_build.specs.Words.{IsWordOf};
ghost use Rattle.policy_build.specs.Good.{IsGoodNetPart, IsGood};
ghost use Rattle.policy_build.specs.Tags.{IsKnown, with_text, tag_texts_in, tag_texts};

use crate::scope::Scope;
use crate::texts::Texts;
use bumpalo::Bump;
use bumpalo::collections::into_bump_slice;
use spoc_ast::{Decl, NetPart, Word};
use spoc_base::{Kind, NoMemory};
use topology::Tag;

/// The tags so far, and their texts.
#[derive(Drop)]
pub(crate) struct Known<'a> {
    pub(crate) texts: Texts<'a>,
    pub(crate) found: Vec<Tag, &'a Bump>,
}

/// The tags, by number: each one where it is declared first.
pub(crate) fn tags<'a>(scope: Scope<'a, '_>) -> Result<&'a [Tag], NoMemory>
    requires { All (IsGood (sources_in scope)) (decls_of scope) }
    ensures said { IfOk result (λ tags. map (tag_seen (sources_in scope.entry)) tags.now ≡ (policy_said (decls_of scope.entry)).tags) }
    ensures written { IfOk result (λ tags. All (λ x. IsCalled kind.Tag (sources_in scope.entry) x.name) tags.now) }
{
    let mut known = Known {
        texts: Texts::new(scope.alloc),
        found: Vec::new(scope.arena),
    };
    for decl in scope.decls {
        add_tags(scope, decl, &mut known)?;
    }
    Ok(into_bump_slice(known.found))
}

fn add_tags<'a>(
    scope: Scope<'a, '_>,
    decl: &Decl<'a>,
    known: &mut Known<'a>,
) -> Result<(), NoMemory>
    requires good { IsGood (sources_in scope) (decl_seen decl.now) }
    requires known { IsKnown (sources_in scope) known.old }
    ensures known { OnOk result (IsKnown (sources_in scope.entry) known.new) }
    ensures texts { OnOk result (known.new.texts ≡ fold with_text known.old.texts (tag_texts (decl_seen decl.now))) }
{
    match decl {
        Decl::Network { parts, .. } => tags_of(scope, parts, known),
        _ => Ok(()),
    }
}

// Adds the tags of a network.
fn tags_of<'a>(
    scope: Scope<'a, '_>,
    parts: &[NetPart<'a>],
    known: &mut Known<'a>,
) -> Result<(), NoMemory>
    requires good { All (IsGoodNetPart (sources_in scope)) (map net_part_seen parts.now) }
    requires known { IsKnown (sources_in scope) known.old }
    ensures known { OnOk result (IsKnown (sources_in scope.entry) known.new) }
    ensures texts { OnOk result (known.new.texts ≡ fold with_text known.old.texts (flat_map tag_texts_in (map net_part_seen parts.now))) }
{
    for part in parts {
        add_part(scope, part, known)?;
    }
    Ok(())
}

fn add_part<'a>(
    scope: Scope<'a, '_>,
    part: &NetPart<'a>,
    known: &mut Known<'a>,
) -> Result<(), NoMemory>
    requires good { IsGoodNetPart (sources_in scope) (net_part_seen part.now) }
    requires known { IsKnown (sources_in scope) known.old }
    ensures known { OnOk result (IsKnown (sources_in scope.entry) known.new) }
    ensures texts { OnOk result (known.new.texts ≡ fold with_text known.old.texts (tag_texts_in (net_part_seen part.now))) }
{
    match part {
        NetPart::Nat { name, .. } => add_tag(scope, *name, known),
        _ => Ok(()),
    }
}

fn add_tag<'a>(scope: Scope<'a, '_>, name: Word<'a>, known: &mut Known<'a>) -> Result<(), NoMemory>
    requires word { IsWordOf (sources_in scope) (word_seen name) }
    requires known { IsKnown (sources_in scope) known.old }
    ensures known { OnOk result (IsKnown (sources_in scope.entry) known.new) }
    ensures texts { OnOk result (known.new.texts ≡ with_text known.old.texts name.entry.text.now) }
{
    if !known.texts.add(name.text)? {
        return Ok(());
    }
    let tag = Tag {
        name: scope.named(Kind::Tag, name),
    };
    let Ok(()) = known.found.push(tag) else {
        return Err(NoMemory);
    };
    Ok(())
}
