ghost use Rattle.std.specs.Prelude.{◌≡◌, true, not, length, List, [], ◌∷◌, ◌++◌, map, Some, None, IfOk, IfErr, IfSome, OnOk, position, ◌<◌, ◌≤◌, slice_set, slice_index_or};
ghost use Rattle.std.specs.List.{list_any};
ghost use Rattle.policy_decls.specs.Names as plain;
ghost use Rattle.policy_decls.specs.Uses.{names_it};
ghost use Rattle.spoc_base.specs.declared.place.Named.{Named};
ghost use Rattle.policy_names.specs.Seen.{kind_seen, mention_seen};
ghost use Rattle.policy_names.specs.Tables.{AreTables, same_key, key_of, tags_after, numbered, twice_among};

use crate::keys::Keys;
use crate::mention::{Mention, NameKind};
use spoc_base::{Named, NoMemory};
use std::alloc::Global;

// How many kinds of names there are.
const KINDS: usize = 12;

/// The names of each kind, and the tags by their texts alone.
#[derive(Drop)]
pub(crate) struct Tables<'a> {
    pub(crate) kinds: Vec<Keys<'a>>,
    pub(crate) tags: Keys<'a>,
}

impl<'a> Tables<'a> {
    /// Tables of no names.
    pub(crate) fn new(alloc: Global) -> Result<Tables<'a>, NoMemory>
        ensures { IfOk result (λ tables. AreTables [] tables.kinds.items tables.tags) }
    {
        let mut kinds = Vec::new(alloc);
        for _ in 0..KINDS {
            let Ok(()) = kinds.push(Keys::new(alloc)) else {
                return Err(NoMemory);
            };
        }
        Ok(Tables {
            kinds,
            tags: Keys::new(alloc),
        })
    }

    /// Adds a name behind the others. False exactly where one of its kind has its owner and text.
    pub(crate) fn note(&mut self, name: &Mention<'a>) -> Result<bool, NoMemory>
        requires { length self.old.kinds.items ≡ 12 }
        ensures added { IfOk result (λ new. (names : List plain.Mention) → AreTables names self.old.kinds.items self.old.tags → new ≡ not (list_any (plain.same_name (mention_seen name.now)) names)) }
        ensures tables { IfOk result (λ new. (names : List plain.Mention) → new ≡ true → AreTables names self.old.kinds.items self.old.tags → AreTables (names ++ mention_seen name.now ∷ []) self.new.kinds.items self.new.tags) }
    {
        let new = note_kind(&mut self.kinds, name)?;
        note_tag(&mut self.tags, name)?;
        Ok(new)
    }

    // The row of a kind.
    fn row(&self, kind: NameKind) -> &Keys<'a>
        requires { length self.now.kinds.items ≡ 12 }
        ensures { result.now ≡ slice_index_or self.now.kinds.items (plain.number_of_kind (kind_seen kind)) [] }
    {
        &self.kinds[kind.index()]
    }

    /// The number of a name among those of its kind, from 0. Of a tag the owner isn't looked at.
    pub(crate) fn find(&self, kind: NameKind, owner: &[u8], text: &[u8]) -> Option<usize>
        requires { length self.now.kinds.items ≡ 12 }
        ensures number { (names : List plain.Mention) (shown : Named) → AreTables names self.now.kinds.items self.now.tags → result ≡ position (names_it (record { kind = kind_seen kind; owner = owner.now; text = text.now; shown = shown })) (numbered names (kind_seen kind)) }
        ensures within { (names : List plain.Mention) → AreTables names self.now.kinds.items self.now.tags → IfSome result (λ n. n < length names) }
    {
        match kind {
            NameKind::Tag => self.tags.find(b"", text),
            _ => self.row(kind).find(owner, text),
        }
    }

    /// How many names of a kind have numbers.
    pub(crate) fn len(&self, kind: NameKind) -> usize
        requires { length self.now.kinds.items ≡ 12 }
        ensures number { (names : List plain.Mention) → AreTables names self.now.kinds.items self.now.tags → result ≡ length (numbered names (kind_seen kind)) }
        ensures within { (names : List plain.Mention) → AreTables names self.now.kinds.items self.now.tags → result ≤ length names }
    {
        match kind {
            NameKind::Tag => self.tags.len(),
            _ => self.row(kind).len(),
        }
    }
}

// Adds a name to the row of its kind.
fn note_kind<'a>(kinds: &mut Vec<Keys<'a>>, name: &Mention<'a>) -> Result<bool, NoMemory>
    requires { length kinds.old.items ≡ 12 }
    ensures added { IfOk result (λ new. new ≡ not (list_any (same_key (key_of (mention_seen name.now))) (slice_index_or kinds.old.items (plain.number_of_kind (kind_seen name.now.kind)) []))) }
    ensures kinds { IfOk result (λ new. new ≡ true → kinds.new.items ≡ slice_set kinds.old.items (plain.number_of_kind (kind_seen name.now.kind)) (slice_index_or kinds.old.items (plain.number_of_kind (kind_seen name.now.kind)) [] ++ key_of (mention_seen name.now) ∷ [])) }
{
    kinds[name.kind.index()].add(name.owner, name.text)
}

// Adds the text of a tag, where the name is that of one.
fn note_tag<'a>(tags: &mut Keys<'a>, name: &Mention<'a>) -> Result<(), NoMemory>
    ensures { OnOk result (tags.new ≡ tags_after tags.old (mention_seen name.now)) }
{
    match name.kind {
        NameKind::Tag => {
            tags.add(b"", name.text)?;
            Ok(())
        }
        _ => Ok(()),
    }
}

/// The tables of these names, or the first that stands among them a second time.
pub(crate) fn tables_of<'a>(
    alloc: Global,
    names: &[Mention<'a>],
) -> Result<Result<Tables<'a>, Named>, NoMemory>
    ensures tables { IfOk result (λ found. IfOk found (λ tables. AreTables (map mention_seen names.now) tables.kinds.items tables.tags)) }
    ensures differ { IfOk result (λ found. IfOk found (λ _. twice_among (map mention_seen names.now) ≡ None)) }
    ensures twice { IfOk result (λ found. IfErr found (λ named. twice_among (map mention_seen names.now) ≡ Some named)) }
{
    let mut tables = Tables::new(alloc)?;
    for name in names {
        if !tables.note(name)? {
            return Ok(Err(name.shown));
        }
    }
    Ok(Ok(tables))
}
