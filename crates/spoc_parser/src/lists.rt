ghost use Rattle.std.specs.Prelude.{◌≡◌, ◌<◌, ◌≤◌, OnOk, length, List, [], ◌∷◌, Option, ℕ};
ghost use Rattle.std.specs.List.{AllZip};
ghost use Rattle.spoc_lexer.specs.Tokens.{Tok};
ghost use Rattle.spoc_parser.specs.Ends.{is_at, closes};
ghost use Rattle.spoc_parser.specs.Reading.{at_idle};
ghost use Rattle.spoc_parser.specs.Readers.{read_until, read_further, read_listed, read_word, list_ends, never_ends};
ghost use Rattle.spoc_parser.specs.Seen.{toks_of, Gives, Behind, IsWord};

use crate::cursor::{Cursor, Source};
use crate::fail::Stop;
use crate::forms::Form;
use bumpalo::Bump;
use bumpalo::collections::into_bump_slice;
use spoc_ast::Word;

// Where parts end that stand one behind the other.
#[derive(Clone, Copy, Debug, PartialEq, Eq)]
pub enum End {
    // At `}`.
    Brace,
    // Where no part without effect follows.
    Idle,
    // Where no word follows.
    Words,
}

// What a list of a tree is made of.
pub trait Part<'a>: Copy {
    ghost Plain: { Type 0 };

    ghost reads: { List Tok → Option (Plain × List Tok) };

    ghost is: { ℕ → Plain → Self → Type 0 };

    fn part(source: Source<'a>, tokens: &mut Cursor<'a, '_>) -> Result<Self, Stop>
        ensures gives { Gives (is source.entry.file) result (toks_of tokens.new.rest.now) (reads (toks_of tokens.old.rest.now)) }
        ensures shorter { OnOk result (length tokens.new.rest.now < length tokens.old.rest.now) };
}

impl<'a, 't> Cursor<'a, 't> {
    // Whether a part without effect begins here.
    pub fn at_idle(&self) -> bool
        ensures { result ≡ at_idle (toks_of self.now.rest.now) }
    {
        self.at_form(Form::ListKey) || self.at_form(Form::ValueKey) || self.at_form(Form::Flag)
    }

    // Whether parts end here.
    pub fn is_at(&self, end: End) -> bool
        ensures { result ≡ is_at end (toks_of self.now.rest.now) }
    {
        match end {
            End::Brace => self.at_sign(b"}"),
            End::Idle => !self.at_idle(),
            End::Words => !self.at_word(),
        }
    }

    // Whether a list ends behind a comma here.
    pub fn closes(&self, may_close: bool) -> bool
        ensures { result ≡ closes may_close (toks_of self.now.rest.now) }
    {
        if may_close { self.at_list_end() } else { false }
    }

    // Whether a list ends here.
    pub fn at_list_end(&self) -> bool
        ensures { result ≡ list_ends (toks_of self.now.rest.now) }
    {
        self.at_sign(b";") || self.at_sign(b"]")
    }
}

impl<'a> Source<'a> {
    // The parts up to an end.
    pub fn until<P: Part<'a>>(self, tokens: &mut Cursor<'a, '_>, end: End) -> Result<&'a [P], Stop>
        ensures gives { Gives (λ xs ys. AllZip (P.is self.entry.file) xs ys.now) result (toks_of tokens.new.rest.now) (read_until (is_at end) P.reads (toks_of tokens.old.rest.now)) }
        ensures no_longer { OnOk result (length tokens.new.rest.now ≤ length tokens.old.rest.now) }
    {
        let mut found = Vec::new(self.arena);
        while !tokens.is_at(end) {
            let part = P::part(self, tokens)?;
            found.push(part)?;
        }
        Ok(into_bump_slice(found))
    }

    // The parts behind each comma, behind those that were found. Where the list may close so, a comma may be the last token.
    fn further<P: Part<'a>>(
        self,
        tokens: &mut Cursor<'a, '_>,
        first: P,
        may_close: bool,
    ) -> Result<&'a [P], Stop>
        ensures gives { Gives (λ xs ys. Behind (first ∷ []) (AllZip (P.is self.entry.file) xs) ys.now) result (toks_of tokens.new.rest.now) (read_further (closes may_close) P.reads (toks_of tokens.old.rest.now)) }
        ensures no_longer { OnOk result (length tokens.new.rest.now ≤ length tokens.old.rest.now) }
    {
        let mut found = Vec::new(self.arena);
        found.push(first)?;
        while tokens.take_sign(b",") {
            if tokens.closes(may_close) {
                return Ok(into_bump_slice(found));
            }
            let part = P::part(self, tokens)?;
            found.push(part)?;
        }
        Ok(into_bump_slice(found))
    }

    // One or more parts with commas between them.
    pub fn listed<P: Part<'a>>(
        self,
        tokens: &mut Cursor<'a, '_>,
        may_close: bool,
    ) -> Result<&'a [P], Stop>
        ensures gives { Gives (λ xs ys. AllZip (P.is self.entry.file) xs ys.now) result (toks_of tokens.new.rest.now) (read_listed (closes may_close) P.reads (toks_of tokens.old.rest.now)) }
        ensures shorter { OnOk result (length tokens.new.rest.now < length tokens.old.rest.now) }
    {
        let first = P::part(self, tokens)?;
        self.further(tokens, first, may_close)
    }

    // The words of this form behind each comma, behind those that were found.
    pub fn more_words(
        self,
        tokens: &mut Cursor<'a, '_>,
        form: Form,
        before: Vec<Word<'a>, &'a Bump>,
    ) -> Result<&'a [Word<'a>], Stop>
        ensures gives { Gives (λ xs ys. Behind before.entry.items (AllZip (IsWord self.entry.file) xs) ys.now) result (toks_of tokens.new.rest.now) (read_further never_ends (read_word form) (toks_of tokens.old.rest.now)) }
        ensures no_longer { OnOk result (length tokens.new.rest.now ≤ length tokens.old.rest.now) }
    {
        let mut found = before;
        while tokens.take_sign(b",") {
            let word = self.word(tokens, form)?;
            found.push(word)?;
        }
        Ok(into_bump_slice(found))
    }

    // One or more words of this form with commas between them.
    pub fn words(self, tokens: &mut Cursor<'a, '_>, form: Form) -> Result<&'a [Word<'a>], Stop>
        ensures gives { Gives (λ xs ys. AllZip (IsWord self.entry.file) xs ys.now) result (toks_of tokens.new.rest.now) (read_listed never_ends (read_word form) (toks_of tokens.old.rest.now)) }
        ensures shorter { OnOk result (length tokens.new.rest.now < length tokens.old.rest.now) }
    {
        let first = self.word(tokens, form)?;
        let mut found = Vec::new(self.arena);
        found.push(first)?;
        self.more_words(tokens, form, found)
    }
}
