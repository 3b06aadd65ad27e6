ghost use Rattle.std.specs.Prelude.{◌≡◌, ◌<◌, ◌≤◌, OnOk, ℕ, [], ◌∷◌, true, length};
ghost use Rattle.std.specs.List.{AllZip};
ghost use Rattle.spoc_ast.specs.declared.set.SetTree.{out-SetTree};
ghost use Rattle.spoc_ast.specs.declared.set.InterTree.{out-InterTree};
ghost use Rattle.spoc_parser.specs.Readers.{read_unless, read_further, list_ends};
ghost use Rattle.spoc_parser.specs.Reading.{read_bracket, read_anys, read_inside, no_prefix, read_named_term, read_term, read_signed, read_other, read_others, read_inter, read_set, read_set_in};
ghost use Rattle.spoc_parser.specs.Seen.{toks_of, Gives, Behind, IsWord, IsPerhaps, IsTermOf, IsTerm, IsFurther, IsInter, IsSet, IsSetIn};

use crate::cursor::{Cursor, Source};
use crate::fail::Stop;
use crate::forms::Form;
use bumpalo::collections::into_bump_slice;
use spoc_ast::{FurtherTree, InterTree, SetTree, TermTree, Word};

// What terms may stand in a set.
#[derive(Clone, Copy)]
pub struct Scope {
    // whether `user` may
    pub user: bool,
    // whether `area:N` may
    pub area: bool,
}

impl Scope {
    // Inside brackets.
    fn inside(self) -> Scope
        ensures user { result.user ≡ self.user }
        ensures area { result.area ≡ true }
    {
        Scope {
            user: self.user,
            area: true,
        }
    }
}

// A term, and the further terms of a part.
fn inter_of<'a>(first: TermTree<'a>, rest: &'a [FurtherTree<'a>]) -> InterTree<'a>
    ensures first { (out-InterTree result).first ≡ first.entry }
    ensures rest { (out-InterTree result).rest.now ≡ rest.now }
{
    InterTree { first, rest }
}

// A set of these parts.
fn set_of<'a>(inters: &'a [InterTree<'a>]) -> SetTree<'a>
    ensures { (out-SetTree result).inters.now ≡ inters.now }
{
    SetTree { inters }
}

impl<'a> Source<'a> {
    // A term that is a kind and a name.
    fn named_term(self, tokens: &mut Cursor<'a, '_>, area: bool) -> Result<TermTree<'a>, Stop>
        ensures gives { (depth : ℕ) → Gives (IsTermOf self.entry.file (IsSetIn self.entry.file depth)) result (toks_of tokens.new.rest.now) (read_named_term area (toks_of tokens.old.rest.now)) }
        ensures shorter { OnOk result (length tokens.new.rest.now < length tokens.old.rest.now) }
    {
        if tokens.at_kind(b"network:") {
            let name = self.named(tokens, b"network:")?;
            return Ok(TermTree::Network(name));
        }
        if tokens.at_kind(b"host:") {
            let name = self.named(tokens, b"host:")?;
            return Ok(TermTree::Host(name));
        }
        if tokens.at_kind(b"interface:") {
            let place = self.port(tokens)?;
            return Ok(TermTree::Port(place));
        }
        if tokens.at_kind(b"group:") {
            let name = self.named(tokens, b"group:")?;
            return Ok(TermTree::Group(name));
        }
        if tokens.at_kind(b"any:") {
            let name = self.named(tokens, b"any:")?;
            return Ok(TermTree::Aggregate(name));
        }
        if !area {
            return Err(Stop::Unread);
        }
        let name = self.named(tokens, b"area:")?;
        Ok(TermTree::Area(name))
    }

    // `ip = PREFIX &`, where `ip` comes next.
    fn inside(self, tokens: &mut Cursor<'a, '_>) -> Result<Option<Word<'a>>, Stop>
        ensures gives { Gives (IsPerhaps (IsWord self.entry.file)) result (toks_of tokens.new.rest.now) (read_unless no_prefix read_inside (toks_of tokens.old.rest.now)) }
        ensures no_longer { OnOk result (length tokens.new.rest.now ≤ length tokens.old.rest.now) }
    {
        if !tokens.at_key(b"ip") {
            return Ok(None);
        }
        tokens.key(b"ip")?;
        tokens.sign(b"=")?;
        let prefix = self.word(tokens, Form::Prefix)?;
        tokens.sign(b"&")?;
        Ok(Some(prefix))
    }

    #[cycle(terms)]
    fn term(
        self,
        tokens: &mut Cursor<'a, '_>,
        scope: Scope,
        depth: u8,
    ) -> Result<TermTree<'a>, Stop>
        ensures gives { Gives (IsTerm self.entry.file depth) result (toks_of tokens.new.rest.now) (read_term scope.user depth scope.area (toks_of tokens.old.rest.now)) }
        ensures shorter { OnOk result (length tokens.new.rest.now < length tokens.old.rest.now) }
    {
        if tokens.take_key(b"user") {
            if !scope.user {
                return Err(Stop::Unread);
            }
            return Ok(TermTree::User);
        }
        if tokens.take_key(b"network:") {
            let set = self.bracket(tokens, scope, depth)?;
            return Ok(TermTree::Nets(set));
        }
        if tokens.take_key(b"host:") {
            let set = self.bracket(tokens, scope, depth)?;
            return Ok(TermTree::Hosts(set));
        }
        if tokens.take_key(b"any:") {
            return self.anys(tokens, scope, depth);
        }
        self.named_term(tokens, scope.area)
    }

    // A set in brackets.
    #[cycle(terms)]
    fn bracket(
        self,
        tokens: &mut Cursor<'a, '_>,
        scope: Scope,
        depth: u8,
    ) -> Result<SetTree<'a>, Stop>
        ensures gives { Gives (IsSetIn self.entry.file depth) result (toks_of tokens.new.rest.now) (read_bracket (read_set_in scope.user depth true) (toks_of tokens.old.rest.now)) }
        ensures shorter { OnOk result (length tokens.new.rest.now < length tokens.old.rest.now) }
    {
        tokens.sign(b"[")?;
        let set = self.set(tokens, scope.inside(), depth)?;
        tokens.sign(b"]")?;
        Ok(set)
    }

    // A set in brackets, perhaps behind a prefix.
    #[cycle(terms)]
    fn anys(
        self,
        tokens: &mut Cursor<'a, '_>,
        scope: Scope,
        depth: u8,
    ) -> Result<TermTree<'a>, Stop>
        ensures gives { Gives (IsTerm self.entry.file depth) result (toks_of tokens.new.rest.now) (read_anys (read_set_in scope.user depth true) (toks_of tokens.old.rest.now)) }
        ensures shorter { OnOk result (length tokens.new.rest.now < length tokens.old.rest.now) }
    {
        tokens.sign(b"[")?;
        let inside = self.inside(tokens)?;
        let set = self.set(tokens, scope.inside(), depth)?;
        tokens.sign(b"]")?;
        Ok(TermTree::Anys(inside, set))
    }

    // A set of so many levels at most.
    #[cycle(terms)]
    pub fn set(
        self,
        tokens: &mut Cursor<'a, '_>,
        scope: Scope,
        depth: u8,
    ) -> Result<SetTree<'a>, Stop>
        ensures gives { Gives (IsSetIn self.entry.file depth) result (toks_of tokens.new.rest.now) (read_set_in scope.user depth scope.area (toks_of tokens.old.rest.now)) }
        ensures shorter { OnOk result (length tokens.new.rest.now < length tokens.old.rest.now) }
    {
        if depth == 0 {
            return Err(Stop::Unread);
        }
        self.inters(tokens, scope, depth - 1)
    }

    #[cycle(terms)]
    fn inters(
        self,
        tokens: &mut Cursor<'a, '_>,
        scope: Scope,
        depth: u8,
    ) -> Result<SetTree<'a>, Stop>
        ensures gives { Gives (IsSet (IsTerm self.entry.file depth)) result (toks_of tokens.new.rest.now) (read_set (read_term scope.user depth scope.area) (toks_of tokens.old.rest.now)) }
        ensures shorter { OnOk result (length tokens.new.rest.now < length tokens.old.rest.now) }
    {
        let first = self.inter(tokens, scope, depth)?;
        let inters = self.more_inters(tokens, scope, depth, first)?;
        Ok(set_of(inters))
    }

    // The parts behind each comma, behind the first.
    #[cycle(terms)]
    fn more_inters(
        self,
        tokens: &mut Cursor<'a, '_>,
        scope: Scope,
        depth: u8,
        first: InterTree<'a>,
    ) -> Result<&'a [InterTree<'a>], Stop>
        ensures gives { Gives (λ xs ys. Behind (first.entry ∷ []) (AllZip (IsInter (IsTerm self.entry.file depth)) xs) ys.now) result (toks_of tokens.new.rest.now) (read_further list_ends (read_inter (read_term scope.user depth scope.area)) (toks_of tokens.old.rest.now)) }
        ensures no_longer { OnOk result (length tokens.new.rest.now ≤ length tokens.old.rest.now) }
    {
        let mut found = Vec::new(self.arena);
        found.push(first)?;
        while tokens.take_sign(b",") {
            if tokens.at_list_end() {
                return Ok(into_bump_slice(found));
            }
            let part = self.inter(tokens, scope, depth)?;
            found.push(part)?;
        }
        Ok(into_bump_slice(found))
    }

    #[cycle(terms)]
    fn inter(
        self,
        tokens: &mut Cursor<'a, '_>,
        scope: Scope,
        depth: u8,
    ) -> Result<InterTree<'a>, Stop>
        ensures gives { Gives (IsInter (IsTerm self.entry.file depth)) result (toks_of tokens.new.rest.now) (read_inter (read_term scope.user depth scope.area) (toks_of tokens.old.rest.now)) }
        ensures shorter { OnOk result (length tokens.new.rest.now < length tokens.old.rest.now) }
    {
        let first = self.term(tokens, scope, depth)?;
        let rest = self.others(tokens, scope, depth)?;
        Ok(inter_of(first, rest))
    }

    // The further terms of a part.
    #[cycle(terms)]
    fn others(
        self,
        tokens: &mut Cursor<'a, '_>,
        scope: Scope,
        depth: u8,
    ) -> Result<&'a [FurtherTree<'a>], Stop>
        ensures gives { Gives (λ xs ys. AllZip (IsFurther (IsTerm self.entry.file depth)) xs ys.now) result (toks_of tokens.new.rest.now) (read_others (read_term scope.user depth scope.area) (toks_of tokens.old.rest.now)) }
        ensures no_longer { OnOk result (length tokens.new.rest.now ≤ length tokens.old.rest.now) }
    {
        let mut found = Vec::new(self.arena);
        while tokens.at_sign(b"&") {
            let other = self.other(tokens, scope, depth)?;
            found.push(other)?;
        }
        Ok(into_bump_slice(found))
    }

    // `&` and a term, perhaps behind `!`.
    #[cycle(terms)]
    fn other(
        self,
        tokens: &mut Cursor<'a, '_>,
        scope: Scope,
        depth: u8,
    ) -> Result<FurtherTree<'a>, Stop>
        ensures gives { Gives (IsFurther (IsTerm self.entry.file depth)) result (toks_of tokens.new.rest.now) (read_other (read_term scope.user depth scope.area) (toks_of tokens.old.rest.now)) }
        ensures shorter { OnOk result (length tokens.new.rest.now < length tokens.old.rest.now) }
    {
        tokens.sign(b"&")?;
        self.signed(tokens, scope, depth)
    }

    #[cycle(terms)]
    fn signed(
        self,
        tokens: &mut Cursor<'a, '_>,
        scope: Scope,
        depth: u8,
    ) -> Result<FurtherTree<'a>, Stop>
        ensures gives { Gives (IsFurther (IsTerm self.entry.file depth)) result (toks_of tokens.new.rest.now) (read_signed (read_term scope.user depth scope.area) (toks_of tokens.old.rest.now)) }
        ensures shorter { OnOk result (length tokens.new.rest.now < length tokens.old.rest.now) }
    {
        let without = tokens.take_sign(b"!");
        let term = self.term(tokens, scope, depth)?;
        Ok(FurtherTree { without, term })
    }
}
