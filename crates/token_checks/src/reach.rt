ghost use Rattle.std.specs.Prelude.{◌≡◌, ◌≤◌, ◌<◌, ◌+◌, ◌^◌, ℕ, List, Ok, length};
ghost use Rattle.std.specs.List.{All};
ghost use Rattle.spoc_lexer.specs.Tokens.{Tok, tokens_of};
ghost use Rattle.spoc_lexer.specs.declared.token.Token.{Token};
ghost use Rattle.token_checks.specs.Places.{toks_of};

/// Each token of a text ends within it; in a text of at most 4 MiB the ends fit 32 bits.
pub fn tokens_end_within_the_text()
    ensures within { (text : List ℕ) (toks : List Tok) → tokens_of text ≡ Ok toks → All (λ tok. tok.start + length tok.text ≤ length text) toks }
    ensures fit { (text : List ℕ) (toks : List Tok) → length text ≤ 4194304 → tokens_of text ≡ Ok toks → All (λ tok. tok.start + length tok.text < 2 ^ 32) toks }
{}

/// A text has no more tokens than bytes; in a text of at most 4 MiB the number of a token fits 32 bits.
///
/// The text of a description may be empty and is a token all the same, but the word `description`
/// before it has many bytes.
pub fn tokens_are_no_more_than_bytes()
    ensures few { (text : List ℕ) (toks : List Tok) → tokens_of text ≡ Ok toks → length toks ≤ length text }
    ensures fit { (text : List ℕ) (tokens : List Token) → length text ≤ 4194304 → tokens_of text ≡ Ok (toks_of tokens) → length tokens < 2 ^ 32 }
{}
