ghost use Rattle.std.specs.Prelude.{◌≡◌, ◌<◌, ◌≤◌, ◌||◌, OnOk, IfOk, IfErr, Some, length, List, [], ◌∷◌, map, drop};
ghost use Rattle.std.specs.List.{AllZip};
ghost use Rattle.spoc_parser.specs.Forms.{read_any_word};
ghost use Rattle.spoc_parser.specs.Trees.{Lexeme};
ghost use Rattle.spoc_parser.specs.Texts.{first_joins, last_joins, is_joint, are_joined, joined, fits};
ghost use Rattle.spoc_parser.specs.Readers.{word_count, words_of, read_spread, read_spread_or_none};
ghost use Rattle.spoc_parser.specs.Seen.{toks_of, Gives, IsWord};
ghost use Rattle.spoc_parser.specs.SeenParts.{AreWords, written};

use crate::cursor::{Cursor, Source};
use crate::fail::Stop;
use crate::forms::Form;
use crate::lists::{End, Part};
use bumpalo::collections::into_bump_slice;
use spoc_ast::Word;

fn is_joint(byte: u8) -> bool
    ensures { result ≡ is_joint byte }
{
    matches!(byte, b'-' | b':' | b'/')
}

fn first_joins(text: &[u8]) -> bool
    ensures { result ≡ first_joins text.now }
{
    match text {
        [first, ..] => is_joint(*first),
        [] => false,
    }
}

fn last_joins(text: &[u8]) -> bool
    ensures { result ≡ last_joins text.now }
{
    match text {
        [.., last] => is_joint(*last),
        [] => false,
    }
}

fn are_two_joined(text: &[u8], next: &[u8]) -> bool
    ensures { result ≡ (last_joins text.now || first_joins next.now) }
{
    last_joins(text) || first_joins(next)
}

// Whether a joint stands at each seam of the words.
fn are_joined(words: &[Word<'_>]) -> bool
    ensures { result ≡ are_joined (written words.now) }
{
    let mut at = 1;
    while at < words.len() {
        if !are_two_joined(words[at - 1].text, words[at].text) {
            return false;
        }
        at += 1;
    }
    true
}

impl<'a> Part<'a> for Word<'a> {
    ghost Plain = { Lexeme };

    ghost reads = { read_any_word };

    ghost is = { IsWord };

    fn part(source: Source<'a>, tokens: &mut Cursor<'a, '_>) -> Result<Self, Stop> {
        source.word(tokens, Form::Any)
    }
}

impl<'a> Source<'a> {
    // All words that come next.
    fn word_run(self, tokens: &mut Cursor<'a, '_>) -> Result<&'a [Word<'a>], Stop>
        ensures gives { Gives (λ xs ys. AreWords self.entry.file xs ys.now) result (toks_of tokens.new.rest.now) (Some (words_of (toks_of tokens.old.rest.now), drop (word_count (toks_of tokens.old.rest.now)) (toks_of tokens.old.rest.now))) }
        ensures no_longer { OnOk result (length tokens.new.rest.now ≤ length tokens.old.rest.now) }
    {
        self.until(tokens, End::Words)
    }

    // The bytes of words, one behind the other.
    fn joined(self, words: &[Word<'a>]) -> Result<&'a [u8], Stop>
        ensures text { IfOk result (λ text. text.now ≡ joined (written words.now)) }
        ensures memory { IfErr result (λ e. e ≡ Stop.Memory) }
    {
        let mut text = Vec::new(self.arena);
        for word in words {
            text.extend_from_slice(word.text)?;
        }
        Ok(into_bump_slice(text))
    }

    // All words that come next, which have to be a text of this form.
    pub fn spread(self, tokens: &mut Cursor<'a, '_>, form: Form) -> Result<&'a [Word<'a>], Stop>
        ensures gives { Gives (λ xs ys. AreWords self.entry.file xs ys.now) result (toks_of tokens.new.rest.now) (read_spread form (toks_of tokens.old.rest.now)) }
        ensures no_longer { OnOk result (length tokens.new.rest.now ≤ length tokens.old.rest.now) }
    {
        let words = self.word_run(tokens)?;
        if !are_joined(words) {
            return Err(Stop::Unread);
        }
        let text = self.joined(words)?;
        if !form.fits(text) {
            return Err(Stop::Unread);
        }
        Ok(words)
    }

    // The same where a word comes next, and else no words.
    pub fn spread_or_none(
        self,
        tokens: &mut Cursor<'a, '_>,
        form: Form,
    ) -> Result<&'a [Word<'a>], Stop>
        ensures gives { Gives (λ xs ys. AreWords self.entry.file xs ys.now) result (toks_of tokens.new.rest.now) (read_spread_or_none form (toks_of tokens.old.rest.now)) }
        ensures no_longer { OnOk result (length tokens.new.rest.now ≤ length tokens.old.rest.now) }
    {
        if !tokens.at_word() {
            return Ok(&[]);
        }
        self.spread(tokens, form)
    }
}
