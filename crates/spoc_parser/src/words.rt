ghost use Rattle.std.specs.Prelude.{◌≡◌, ◌<◌, ◌≤◌, ◌+◌, ◌^◌, [], ◌∷◌, true, false, None, OnOk, OnSome, IfSome, IfNone, IsTrue, if◌then◌else◌, length, drop};
ghost use Rattle.spoc_parser.specs.Readers.{at_sign, at_key, at_kind, at_form, at_word, past, is_word, is_sign, is_text, read_sign, read_key, read_word, read_text, read_named, port_of, read_port};
ghost use Rattle.spoc_parser.specs.Texts.{begins_with};
ghost use Rattle.spoc_parser.specs.Reach.{IsInReach};
ghost use Rattle.spoc_lexer.specs.Seen.{seen};
ghost use Rattle.spoc_parser.specs.Seen.{toks_of, Gives, IsWord, IsPort, IsPerhaps};

use crate::cursor::{Cursor, Source};
use crate::fail::Stop;
use crate::forms::{Form, cut, is_name};
use spoc_ast::{PortName, Word};
use spoc_base::Span;
use spoc_lexer::{Token, TokenKind};

fn is_word(kind: TokenKind) -> bool
    ensures { result ≡ is_word kind }
{
    matches!(kind, TokenKind::Word)
}

fn is_sign(kind: TokenKind) -> bool
    ensures { result ≡ is_sign kind }
{
    matches!(kind, TokenKind::Sign)
}

fn is_text(kind: TokenKind) -> bool
    ensures { result ≡ is_text kind }
{
    matches!(kind, TokenKind::Description)
}

impl<'a, 't> Cursor<'a, 't> {
    // Whether the next token is this sign.
    pub fn at_sign(&self, text: &[u8]) -> bool
        ensures { result ≡ at_sign text.now (toks_of self.now.rest.now) }
    {
        match self.rest {
            [token, ..] => is_sign(token.kind) && token.text == text,
            [] => false,
        }
    }

    // Whether the next token is this word.
    pub fn at_key(&self, text: &[u8]) -> bool
        ensures { result ≡ at_key text.now (toks_of self.now.rest.now) }
    {
        match self.rest {
            [token, ..] => is_word(token.kind) && token.text == text,
            [] => false,
        }
    }

    // Past the next token.
    pub fn step(&mut self)
        requires { 0 < length self.old.rest.now }
        ensures past { toks_of self.new.rest.now ≡ past (toks_of self.old.rest.now) }
        ensures shorter { length self.new.rest.now < length self.old.rest.now }
    {
        self.rest = &self.rest[1..];
    }

    // A sign that has to come.
    pub fn sign(&mut self, text: &[u8]) -> Result<(), Stop>
        ensures gives { Gives (λ a x. a ≡ x) result (toks_of self.new.rest.now) (read_sign text.now (toks_of self.old.rest.now)) }
        ensures shorter { OnOk result (length self.new.rest.now < length self.old.rest.now) }
        ensures no_longer { length self.new.rest.now ≤ length self.old.rest.now }
    {
        if !self.at_sign(text) {
            return Err(Stop::Unread);
        }
        self.step();
        Ok(())
    }

    // A word that has to come.
    pub fn key(&mut self, text: &[u8]) -> Result<(), Stop>
        ensures gives { Gives (λ a x. a ≡ x) result (toks_of self.new.rest.now) (read_key text.now (toks_of self.old.rest.now)) }
        ensures shorter { OnOk result (length self.new.rest.now < length self.old.rest.now) }
        ensures no_longer { length self.new.rest.now ≤ length self.old.rest.now }
    {
        if !self.at_key(text) {
            return Err(Stop::Unread);
        }
        self.step();
        Ok(())
    }

    // Whether the next token is a word that begins so.
    pub fn at_kind(&self, kind: &[u8]) -> bool
        ensures { result ≡ at_kind kind.now (toks_of self.now.rest.now) }
    {
        match self.rest {
            [token, ..] => is_word(token.kind) && begins_with(kind, token.text),
            [] => false,
        }
    }

    // Whether the next token is a word of this form.
    pub fn at_form(&self, form: Form) -> bool
        ensures { result ≡ at_form form (toks_of self.now.rest.now) }
    {
        match self.rest {
            [token, ..] => is_word(token.kind) && form.fits(token.text),
            [] => false,
        }
    }

    // Whether the next token is a word.
    pub fn at_word(&self) -> bool
        ensures { result ≡ at_word (toks_of self.now.rest.now) }
    {
        match self.rest {
            [token, ..] => is_word(token.kind),
            [] => false,
        }
    }

    // Takes a sign, where it comes next.
    pub fn take_sign(&mut self, text: &[u8]) -> bool
        ensures which { result ≡ at_sign text.now (toks_of self.old.rest.now) }
        ensures left { toks_of self.new.rest.now ≡ (if at_sign text.now (toks_of self.old.rest.now) then past (toks_of self.old.rest.now) else toks_of self.old.rest.now) }
        ensures shorter { IsTrue result → length self.new.rest.now < length self.old.rest.now }
        ensures no_longer { length self.new.rest.now ≤ length self.old.rest.now }
    {
        if !self.at_sign(text) {
            return false;
        }
        self.step();
        true
    }

    // Takes a word, where it comes next.
    pub fn take_key(&mut self, text: &[u8]) -> bool
        ensures which { result ≡ at_key text.now (toks_of self.old.rest.now) }
        ensures left { toks_of self.new.rest.now ≡ (if at_key text.now (toks_of self.old.rest.now) then past (toks_of self.old.rest.now) else toks_of self.old.rest.now) }
        ensures shorter { IsTrue result → length self.new.rest.now < length self.old.rest.now }
        ensures no_longer { length self.new.rest.now ≤ length self.old.rest.now }
    {
        if !self.at_key(text) {
            return false;
        }
        self.step();
        true
    }

    // Takes the next token.
    pub fn take(&mut self) -> Option<Token<'a>>
        ensures token { IfSome result (λ token. toks_of self.old.rest.now ≡ seen token ∷ toks_of self.new.rest.now) }
        ensures reach { IfSome result IsInReach }
        ensures none { IfNone result (toks_of self.old.rest.now ≡ []) }
        ensures shorter { OnSome result (length self.new.rest.now < length self.old.rest.now) }
        ensures no_longer { length self.new.rest.now ≤ length self.old.rest.now }
    {
        if self.rest.is_empty() {
            return None;
        }
        let token = self.rest[0];
        self.step();
        Some(token)
    }
}

fn begins_with(start: &[u8], text: &[u8]) -> bool
    ensures { result ≡ begins_with start.now text.now }
{
    text.len() >= start.len() && &text[..start.len()] == start
}

// The rest of a text that begins so.
fn behind<'a>(start: &[u8], text: &'a [u8]) -> Option<&'a [u8]>
    ensures some { IfSome result (λ rest. (begins_with start.now text.now ≡ true) × (rest.now ≡ drop (length start.now) text.now) × (length start.now + length rest.now ≡ length text.now)) }
    ensures none { IfNone result (begins_with start.now text.now ≡ false) }
{
    if begins_with(start, text) && text.len() >= start.len() {
        return Some(&text[start.len()..]);
    }
    None
}

impl<'a> Source<'a> {
    // A word of the file.
    fn word_at(self, start: u32, text: &'a [u8]) -> Word<'a>
        requires { start + length text.now < 2 ^ 32 }
        ensures { IsWord self.entry.file (record { start = start; text = text.now }) result }
    {
        let end = start + text.len() as u32;
        let span = Span {
            file: self.file,
            start,
            end,
        };
        Word { span, text }
    }

    // A word of this form.
    pub fn word(self, tokens: &mut Cursor<'a, '_>, form: Form) -> Result<Word<'a>, Stop>
        ensures gives { Gives (IsWord self.entry.file) result (toks_of tokens.new.rest.now) (read_word form (toks_of tokens.old.rest.now)) }
        ensures shorter { OnOk result (length tokens.new.rest.now < length tokens.old.rest.now) }
        ensures no_longer { length tokens.new.rest.now ≤ length tokens.old.rest.now }
    {
        let Some(token) = tokens.take() else {
            return Err(Stop::Unread);
        };
        if !is_word(token.kind) || !form.fits(token.text) {
            return Err(Stop::Unread);
        }
        Ok(self.word_at(token.start, token.text))
    }

    // The text of a description.
    pub fn text(self, tokens: &mut Cursor<'a, '_>) -> Result<Word<'a>, Stop>
        ensures gives { Gives (IsWord self.entry.file) result (toks_of tokens.new.rest.now) (read_text (toks_of tokens.old.rest.now)) }
        ensures shorter { OnOk result (length tokens.new.rest.now < length tokens.old.rest.now) }
        ensures no_longer { length tokens.new.rest.now ≤ length tokens.old.rest.now }
    {
        let Some(token) = tokens.take() else {
            return Err(Stop::Unread);
        };
        if !is_text(token.kind) {
            return Err(Stop::Unread);
        }
        Ok(self.word_at(token.start, token.text))
    }

    // The name of a word that is this kind and a name.
    pub fn named(self, tokens: &mut Cursor<'a, '_>, kind: &[u8]) -> Result<Word<'a>, Stop>
        ensures gives { Gives (IsWord self.entry.file) result (toks_of tokens.new.rest.now) (read_named kind.now (toks_of tokens.old.rest.now)) }
        ensures shorter { OnOk result (length tokens.new.rest.now < length tokens.old.rest.now) }
        ensures no_longer { length tokens.new.rest.now ≤ length tokens.old.rest.now }
    {
        let Some(token) = tokens.take() else {
            return Err(Stop::Unread);
        };
        if !is_word(token.kind) {
            return Err(Stop::Unread);
        }
        let Some(name) = behind(kind, token.text) else {
            return Err(Stop::Unread);
        };
        if !is_name(name) {
            return Err(Stop::Unread);
        }
        Ok(self.word_at(token.start + kind.len() as u32, name))
    }

    // The interface of two names with a `.` between them.
    fn port_of(self, start: u32, text: &'a [u8]) -> Option<PortName<'a>>
        requires { start + length text.now < 2 ^ 32 }
        ensures { IsPerhaps (IsPort self.entry.file) (port_of (record { start = start; text = text.now })) result }
    {
        let (router, net) = cut(text, b'.')?;
        if !is_name(router) || !is_name(net) {
            return None;
        }
        let router = self.word_at(start, router);
        let net = self.word_at(router.span.end + 1, net);
        Some(PortName { router, net })
    }

    // The interface of a router at a network.
    pub fn port(self, tokens: &mut Cursor<'a, '_>) -> Result<PortName<'a>, Stop>
        ensures gives { Gives (IsPort self.entry.file) result (toks_of tokens.new.rest.now) (read_port (toks_of tokens.old.rest.now)) }
        ensures shorter { OnOk result (length tokens.new.rest.now < length tokens.old.rest.now) }
        ensures no_longer { length tokens.new.rest.now ≤ length tokens.old.rest.now }
    {
        let Some(token) = tokens.take() else {
            return Err(Stop::Unread);
        };
        if !is_word(token.kind) {
            return Err(Stop::Unread);
        }
        let Some(names) = behind(b"interface:", token.text) else {
            return Err(Stop::Unread);
        };
        match self.port_of(token.start + 10, names) {
            Some(place) => Ok(place),
            None => Err(Stop::Unread),
        }
    }
}
