//! What the tokens of a text have to do with the grammar of texts.
ghost use Rattle.std.specs.Prelude.{◌≡◌, ◌↔◌, ℕ, List, Ok, Err};
ghost use Rattle.spoc_lexer.specs.Grammar.{Piece, Divide, tokens_from, HasTokens, StopsAt};
ghost use Rattle.spoc_lexer.specs.Tokens.{Tok, tokens_of};

/// A text has tokens exactly where it can be divided into blanks, comments, words, signs and the
/// texts of descriptions, and they are those of each such division. It is refused exactly at the one
/// offset up to which it can be divided and where no piece begins.
pub fn tokens_follow_the_grammar()
    ensures found { (text : List ℕ) (toks : List Tok) → tokens_of text ≡ Ok toks → HasTokens text toks }
    ensures only { (text : List ℕ) (pieces : List Piece) → Divide pieces text → tokens_of text ≡ Ok (tokens_from 0 pieces) }
    ensures stopped { (text : List ℕ) (offset : ℕ) → (tokens_of text ≡ Err offset) ↔ StopsAt text offset }
    ensures one_stop { (text : List ℕ) (offset other : ℕ) → StopsAt text offset → StopsAt text other → offset ≡ other }
{}
