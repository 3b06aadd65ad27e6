ghost use Rattle.std.specs.Prelude.{◌≡◌, ◌<◌, ◌≤◌, ◌^◌, length, IfSome, IfNone};
ghost use Rattle.spoc_lexer.specs.Seen.{seen};
ghost use Rattle.token_checks.specs.Places.{toks_of, IsFirst, NonePasses};
ghost use Rattle.token_checks.specs.Nesting.{most_levels, opens, closes, level_behind, opens_beyond, is_too_deep_at};

use crate::signs::is_the_sign;
use spoc_lexer::Token;

// So many brackets may be open at once.
const MOST_LEVELS: u8 = 16;

fn opens(token: &Token<'_>) -> bool
    ensures { result ≡ opens (seen token.now) }
{
    is_the_sign(token, b'{') || is_the_sign(token, b'[')
}

fn closes(token: &Token<'_>) -> bool
    ensures { result ≡ closes (seen token.now) }
{
    is_the_sign(token, b'}') || is_the_sign(token, b']')
}

// The level behind a token, from the level in front of it.
fn level_behind(level: u8, token: &Token<'_>) -> u8
    requires { level ≤ most_levels }
    ensures { result ≡ level_behind level (seen token.now) }
{
    if opens(token) {
        level + 1
    } else if closes(token) {
        level.saturating_sub(1)
    } else {
        level
    }
}

fn opens_beyond(level: u8, token: &Token<'_>) -> bool
    ensures { result ≡ opens_beyond level (seen token.now) }
{
    opens(token) && level >= MOST_LEVELS
}

/// The number of the first token that is a bracket which opens a seventeenth level, from 0, or `None`
/// where there is none.
///
/// The level is 0 where the tokens begin. Each `{` or `[` adds one, and each `}` or `]` takes one away
/// where the level is above 0. Whether the brackets match isn't looked at. The text of a description is
/// no bracket.
pub fn too_deep(tokens: &[Token<'_>]) -> Option<u32>
    requires { length tokens.now < 2 ^ 32 }
    ensures found { IfSome result (IsFirst (is_too_deep_at (toks_of tokens.now))) }
    ensures none { IfNone result (NonePasses (is_too_deep_at (toks_of tokens.now))) }
{
    let mut level = 0;
    for (place, token) in tokens.iter().enumerate() {
        if opens_beyond(level, token) {
            return Some(place as u32);
        }
        level = level_behind(level, token);
    }
    None
}
