ghost use Rattle.std.specs.Prelude.{◌≡◌, ◌<◌, ◌≤◌, ◌+◌, ◌^◌, length, Some, None, Ok, IfOk, IfErr, OnOk, IfSome, IfNone, option_map};
ghost use Rattle.std.specs.List.{All};
ghost use Rattle.spoc_lexer.specs.Seen.{seen};
ghost use Rattle.spoc_lexer.specs.Tokens.{tokens_of};
ghost use Rattle.token_checks.specs.Places.{toks_of, IsFirst, NonePasses};
ghost use Rattle.token_checks.specs.LeftOut.{is_left_out_at};
ghost use Rattle.token_checks.specs.Nesting.{is_too_deep_at};
ghost use Rattle.spoc_parser.specs.Reach.{AreInReach};
ghost use Rattle.policy_files.specs.Fault.{left_out_fault, deep_fault, first_token, behind_run};
ghost use Rattle.policy_files.specs.Rank.{text_fault, toks_fault};
ghost use Rattle.policy_files.specs.Seen.{IsRefusalOf};
ghost use Rattle.policy_files.specs.OfTexts.{decls_of_text};
ghost use Rattle.spoc_parser.specs.Files.{run_of, most_levels};
ghost use Rattle.spoc_parser.specs.SeenFile.{FailsAt};
ghost use Rattle.spoc_ast.specs.Seen.{file_seen};
ghost use Rattle.syntax_laws.specs.Said.{decls_said};
ghost use Rattle.policy_files.specs.OfTexts.{items_read};

use bumpalo::Bump;
use spoc_ast::File;
use spoc_base::{Fault, Refusal, Span};
use spoc_lexer::{LexFail, Token, tokens};
use spoc_parser::{ParseFail, parse};
use std::alloc::Global;
use syntax_laws::files::trees_of_a_text;
use token_checks::{left_out, too_deep};

fn left_out_at(file: u32, token: &Token<'_>) -> Fault
    requires { token.now.start + length token.now.text.now < 2 ^ 32 }
    ensures { result ≡ left_out_fault (file, seen token.now) }
{
    Fault::LeftOut {
        file,
        offset: token.start,
        word: Span {
            file,
            start: token.start,
            end: token.start + token.text.len() as u32,
        },
    }
}

fn deep_at(file: u32, token: &Token<'_>) -> Fault
    ensures { result ≡ deep_fault (file, seen token.now) }
{
    Fault::Deep {
        file,
        offset: token.start,
    }
}

// The place of the first word that is left out.
fn omitted_place(tokens: &[Token<'_>]) -> Option<usize>
    requires { length tokens.now < 2 ^ 32 }
    ensures found { IfSome result (IsFirst (is_left_out_at (toks_of tokens.now))) }
    ensures within { IfSome result (λ place. place < length tokens.now) }
    ensures none { IfNone result (NonePasses (is_left_out_at (toks_of tokens.now))) }
{
    let place = left_out(tokens)?;
    Some(place as usize)
}

// The place of the first bracket that opens one level too many.
fn deep_place(tokens: &[Token<'_>]) -> Option<usize>
    requires { length tokens.now < 2 ^ 32 }
    ensures found { IfSome result (IsFirst (is_too_deep_at (toks_of tokens.now))) }
    ensures within { IfSome result (λ place. place < length tokens.now) }
    ensures none { IfNone result (NonePasses (is_too_deep_at (toks_of tokens.now))) }
{
    let place = too_deep(tokens)?;
    Some(place as usize)
}

fn omitted(file: u32, tokens: &[Token<'_>]) -> Option<Fault>
    requires few { length tokens.now < 2 ^ 32 }
    requires reach { AreInReach tokens.now }
    ensures { result ≡ option_map (λ tok. left_out_fault (file, tok)) (first_token (is_left_out_at (toks_of tokens.now)) (toks_of tokens.now)) }
{
    let place = omitted_place(tokens)?;
    Some(left_out_at(file, &tokens[place]))
}

fn deep(file: u32, tokens: &[Token<'_>]) -> Option<Fault>
    requires few { length tokens.now < 2 ^ 32 }
    ensures { result ≡ option_map (λ tok. deep_fault (file, tok)) (first_token (is_too_deep_at (toks_of tokens.now)) (toks_of tokens.now)) }
{
    let place = deep_place(tokens)?;
    Some(deep_at(file, &tokens[place]))
}

// The tokens of a file.
fn tokens_in<'a>(alloc: Global, file: u32, text: &'a [u8]) -> Result<Vec<Token<'a>>, Refusal>
    requires { length text.now ≤ 4194304 }
    ensures ok { IfOk result (λ found. tokens_of text.now ≡ Ok (toks_of found.items)) }
    ensures refused { IfErr result (IsRefusalOf (λ fault. text_fault file text.now ≡ Some fault)) }
{
    match tokens(alloc, text) {
        Ok(tokens) => Ok(tokens),
        Err(LexFail::Lex(offset)) => Err(Refusal::Policy(Fault::Lex { file, offset })),
        Err(LexFail::Memory) => Err(Refusal::Memory),
    }
}

// The same, with where they end and how many they are.
fn tokens_of_file<'a>(alloc: Global, file: u32, text: &'a [u8]) -> Result<Vec<Token<'a>>, Refusal>
    requires { length text.now ≤ 4194304 }
    ensures ok { IfOk result (λ found. tokens_of text.now ≡ Ok (toks_of found.items)) }
    ensures few { IfOk result (λ found. length found.items < 2 ^ 32) }
    ensures reach { IfOk result (λ found. AreInReach found.items) }
    ensures refused { IfErr result (IsRefusalOf (λ fault. text_fault file text.now ≡ Some fault)) }
{
    let found = tokens_in(alloc, file, text)?;
    Ok(found)
}

// The trees of the declarations that tokens spell.
fn trees<'a>(arena: &'a Bump, file: u32, tokens: &[Token<'a>]) -> Result<File<'a>, ParseFail>
    requires reach { AreInReach tokens.now }
    ensures said { IfOk result (λ tree. file_seen tree ≡ decls_said file most_levels (items_read (run_of most_levels (toks_of tokens.now)))) }
    ensures ok { OnOk result (behind_run (run_of most_levels (toks_of tokens.now)) ≡ None) }
    ensures err { IfErr result (λ e. FailsAt e (run_of most_levels (toks_of tokens.now))) }
{
    trees_of_a_text();
    match parse(arena, file, tokens) {
        Ok(tree) => Ok(tree),
        Err(fail) => Err(fail),
    }
}

// The declarations that tokens spell.
fn read_tokens<'a>(arena: &'a Bump, file: u32, tokens: &[Token<'a>]) -> Result<File<'a>, Refusal>
    requires few { length tokens.now < 2 ^ 32 }
    requires reach { AreInReach tokens.now }
    ensures said { IfOk result (λ tree. file_seen tree ≡ decls_said file most_levels (items_read (run_of most_levels (toks_of tokens.now)))) }
    ensures ok { OnOk result (toks_fault file (toks_of tokens.now) ≡ None) }
    ensures refused { IfErr result (IsRefusalOf (λ fault. toks_fault file (toks_of tokens.now) ≡ Some fault)) }
{
    if let Some(fault) = omitted(file, tokens) {
        return Err(Refusal::Policy(fault));
    }
    if let Some(fault) = deep(file, tokens) {
        return Err(Refusal::Policy(fault));
    }
    match trees(arena, file, tokens) {
        Ok(tree) => Ok(tree),
        Err(ParseFail::Syntax(offset)) => Err(Refusal::Policy(Fault::Syntax { file, offset })),
        Err(ParseFail::Memory) => Err(Refusal::Memory),
    }
}

/// The declarations of a file of at most 4 MiB, in the order of the text. The error is the fault of
/// the text by itself, or want of memory.
pub fn read_file<'a>(
    alloc: Global,
    arena: &'a Bump,
    file: u32,
    text: &'a [u8],
) -> Result<File<'a>, Refusal>
    requires { length text.now ≤ 4194304 }
    ensures said { IfOk result (λ tree. file_seen tree ≡ decls_of_text file text.now) }
    ensures ok { OnOk result (text_fault file text.now ≡ None) }
    ensures refused { IfErr result (IsRefusalOf (λ fault. text_fault file text.now ≡ Some fault)) }
{
    let tokens = tokens_of_file(alloc, file, text)?;
    read_tokens(arena, file, &tokens)
}
