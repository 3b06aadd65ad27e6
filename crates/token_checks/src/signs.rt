ghost use Rattle.std.specs.Prelude.{◌≡◌};
ghost use Rattle.spoc_lexer.specs.Seen.{seen};
ghost use Rattle.token_checks.specs.Places.{is_word_kind, is_the_sign};

use spoc_lexer::{Token, TokenKind};

pub(crate) fn is_word(token: &Token<'_>) -> bool
    ensures { result ≡ is_word_kind token.now.kind }
{
    matches!(token.kind, TokenKind::Word)
}

// Whether the token is this sign. The text of a description is none.
pub(crate) fn is_the_sign(token: &Token<'_>, byte: u8) -> bool
    ensures { result ≡ is_the_sign byte (seen token.now) }
{
    matches!(token.kind, TokenKind::Sign) && token.text == [byte].as_slice()
}
