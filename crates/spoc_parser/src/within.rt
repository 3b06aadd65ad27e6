ghost use Rattle.std.specs.Prelude.{◌≡◌, IsTrue, nat_lt, ◌-◌, ◌^◌};
ghost use Rattle.std.specs.List.{list_all};
ghost use Rattle.spoc_parser.specs.Reach.{AreInReach, is_in_reach};

use spoc_lexer::Token;

fn is_in_reach(token: &Token<'_>) -> bool
    ensures { result ≡ is_in_reach token.now }
{
    token.text.len() < 4294967296 - token.start as usize
}

fn all_in_reach(tokens: &[Token<'_>]) -> bool
    ensures { result ≡ list_all is_in_reach tokens.now }
{
    tokens.iter().all(is_in_reach)
}

/// Whether each token ends at an offset below 2^32, which `parse` asks for. The tokens of a text
/// of at most 4 MiB do.
pub fn are_in_reach(tokens: &[Token<'_>]) -> bool
    ensures yes { IsTrue result → AreInReach tokens.now }
    ensures no { AreInReach tokens.now → IsTrue result }
{
    all_in_reach(tokens)
}
