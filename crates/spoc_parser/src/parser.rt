ghost use Rattle.std.specs.Prelude.{◌≡◌, ◌≤◌, [], IfOk, IfErr, length};
ghost use Rattle.spoc_parser.specs.Reach.{AreInReach};
ghost use Rattle.spoc_parser.specs.Files.{run_of, most_levels};
ghost use Rattle.spoc_parser.specs.Seen.{toks_of, IsSetIn};
ghost use Rattle.spoc_parser.specs.SeenParts.{IsDecl};
ghost use Rattle.spoc_parser.specs.SeenFile.{Ran, FailsAt};

use crate::cursor::{Cursor, Source};
use crate::fail::{ParseFail, Stop};
use bumpalo::Bump;
use bumpalo::collections::into_bump_slice;
use spoc_ast::{Decl, File};
use spoc_lexer::Token;

// A set, and the sixteen brackets that may be open in it.
const MOST_LEVELS: u8 = 17;

impl<'a> Source<'a> {
    // The longest run of declarations, and the tokens behind it.
    fn run<'t>(
        self,
        tokens: &mut Cursor<'a, 't>,
        depth: u8,
    ) -> Result<(&'a [Decl<'a>], &'t [Token<'a>]), Stop>
        ensures ran { IfOk result (λ r. Ran (IsDecl self.entry.file (IsSetIn self.entry.file depth)) r.0.now (toks_of r.1.now) (run_of depth (toks_of tokens.old.rest.now))) }
        ensures memory { IfErr result (λ e. e ≡ Stop.Memory) }
    {
        let mut found = Vec::new(self.arena);
        while !tokens.rest.is_empty() {
            let left = tokens.rest;
            match self.decl(tokens, depth) {
                Ok(decl) => found.push(decl)?,
                Err(Stop::Unread) => return Ok((into_bump_slice(found), left)),
                Err(Stop::Memory) => return Err(Stop::Memory),
            }
        }
        Ok((into_bump_slice(found), tokens.rest))
    }
}

// The same as `parse`, where sets have so many levels at most.
fn parse_within<'a>(
    source: Source<'a>,
    depth: u8,
    tokens: &[Token<'a>],
) -> Result<File<'a>, ParseFail>
    requires { AreInReach tokens.now }
    ensures ok { IfOk result (λ tree. Ran (IsDecl source.entry.file (IsSetIn source.entry.file depth)) tree.decls.now [] (run_of depth (toks_of tokens.now))) }
    ensures err { IfErr result (λ e. FailsAt e (run_of depth (toks_of tokens.now))) }
{
    let mut cursor = Cursor { rest: tokens };
    let Ok((decls, left)) = source.run(&mut cursor, depth) else {
        return Err(ParseFail::Memory);
    };
    match left {
        [] => Ok(File { decls }),
        [token, ..] => Err(ParseFail::Syntax(token.start)),
    }
}

/// The declarations of the policy file with this number, whose trees lie in the arena.
///
/// They are those that the grammar says, as long as no set has more than sixteen brackets open at
/// once. The error is `Syntax` with the offset of the first token behind the longest run of whole
/// declarations, where the run is not the whole file, or `Memory`.
pub fn parse<'a>(arena: &'a Bump, file: u32, tokens: &[Token<'a>]) -> Result<File<'a>, ParseFail>
    requires { AreInReach tokens.now }
    ensures ok { IfOk result (λ tree. Ran (IsDecl file (IsSetIn file most_levels)) tree.decls.now [] (run_of most_levels (toks_of tokens.now))) }
    ensures err { IfErr result (λ e. FailsAt e (run_of most_levels (toks_of tokens.now))) }
{
    parse_within(Source { arena, file }, MOST_LEVELS, tokens)
}
