ghost use Rattle.std.specs.Prelude.{◌≡◌, ◌<◌, ◌≤◌, ◌^◌, ◌&&◌, length, IfSome, IfNone, option_map};
ghost use Rattle.std.specs.List.{list_any};
ghost use Rattle.std.specs.Str.{bytes_eq};
ghost use Rattle.spoc_lexer.specs.Seen.{seen};
ghost use Rattle.token_checks.specs.Places.{toks_of, seen_there, IsFirst, NonePasses, is_word_kind, is_the_sign, token_before, second_before};
ghost use Rattle.token_checks.specs.LeftOut.{is_among, begins_with, beginnings, part_words, value_words, valued_words, bracket_words, list_words, stands_behind, begins_part, is_word_among, begins_value, has_beginning, is_part_word, is_value_word, is_bracket_word, is_list_word, is_left_out, is_left_out_at};

use crate::signs::{is_the_sign, is_word};
use spoc_lexer::Token;

// A word that begins with one of these is left out wherever it stands.
const BEGINNINGS: [&str; 6] = [
    "crypto:",
    "ipsec:",
    "isakmp:",
    "owner:",
    "secondary:",
    "host:id:",
];

// Left out behind `{`, `}` or `;`.
const PART_WORDS: [&str; 23] = [
    "dynamic",
    "identity",
    "crypto",
    "hub",
    "spoke",
    "bridged",
    "unnumbered",
    "negotiated",
    "loopback",
    "vip",
    "no_in_acl",
    "std_in_acl",
    "no_group_code",
    "filter_only",
    "log_deny",
    "inclusive_border",
    "router_attributes",
    "nat_in",
    "nat_out",
    "disabled",
    "disable_at",
    "policy_distribution_point",
    "general_permit",
];

// The parts whose value may be left out.
const VALUED_WORDS: [&str; 3] = ["managed", "routing", "user"];

// Left out behind the `=` of such a part.
const VALUE_WORDS: [&str; 7] = [
    "secondary",
    "local",
    "routing_only",
    "OSPF",
    "EIGRP",
    "RIPv2",
    "foreach",
];

// Left out behind `[`.
const BRACKET_WORDS: [&str; 2] = ["auto", "all"];

// Left out behind `,`.
const LIST_WORDS: [&str; 7] = [
    "stateless",
    "oneway",
    "reversed",
    "src_net",
    "dst_net",
    "src_any",
    "dst_any",
];

fn is_among(words: &[&str], text: &[u8]) -> bool
    ensures { result ≡ list_any (λ word. bytes_eq text.now word.now) words.now }
{
    words.iter().any(|word| text == word.as_bytes())
}

fn stands_behind(before: Option<&Token<'_>>, byte: u8) -> bool
    ensures { result ≡ stands_behind byte (seen_there before.entry) }
{
    match before {
        Some(token) => is_the_sign(token, byte),
        None => false,
    }
}

fn begins_part(before: Option<&Token<'_>>) -> bool
    ensures { result ≡ begins_part (seen_there before.entry) }
{
    stands_behind(before, b'{') || stands_behind(before, b'}') || stands_behind(before, b';')
}

fn begins_value(second: Option<&Token<'_>>, before: Option<&Token<'_>>) -> bool
    ensures { result ≡ begins_value (seen_there second.entry) (seen_there before.entry) }
{
    match second {
        Some(token) => stands_behind(before, b'=')
            && is_word(token)
            && is_among(&VALUED_WORDS, token.text),
        None => false,
    }
}

fn begins_with_one(beginnings: &[&str], text: &[u8]) -> bool
    ensures { result ≡ list_any (λ beginning. begins_with text.now beginning.now) beginnings.now }
{
    beginnings
        .iter()
        .any(|beginning| text.starts_with(beginning.as_bytes()))
}

fn has_beginning(text: &[u8]) -> bool
    ensures { result ≡ has_beginning text.now }
{
    begins_with_one(&BEGINNINGS, text)
}

fn is_part_word(before: Option<&Token<'_>>, text: &[u8]) -> bool
    ensures { result ≡ is_part_word (seen_there before.entry) text.now }
{
    begins_part(before) && is_among(&PART_WORDS, text)
}

fn is_value_word(second: Option<&Token<'_>>, before: Option<&Token<'_>>, text: &[u8]) -> bool
    ensures { result ≡ is_value_word (seen_there second.entry) (seen_there before.entry) text.now }
{
    begins_value(second, before) && is_among(&VALUE_WORDS, text)
}

fn is_bracket_word(before: Option<&Token<'_>>, text: &[u8]) -> bool
    ensures { result ≡ is_bracket_word (seen_there before.entry) text.now }
{
    stands_behind(before, b'[') && is_among(&BRACKET_WORDS, text)
}

fn is_list_word(before: Option<&Token<'_>>, text: &[u8]) -> bool
    ensures { result ≡ is_list_word (seen_there before.entry) text.now }
{
    stands_behind(before, b',') && is_among(&LIST_WORDS, text)
}

// Whether a token is a word that is left out, by the token before it and the one before that.
fn is_left_out(second: Option<&Token<'_>>, before: Option<&Token<'_>>, token: &Token<'_>) -> bool
    ensures { result ≡ is_left_out (seen_there second.entry) (seen_there before.entry) (seen token.now) }
{
    if !is_word(token) {
        return false;
    }
    has_beginning(token.text)
        || is_part_word(before, token.text)
        || is_value_word(second, before, token.text)
        || is_bracket_word(before, token.text)
        || is_list_word(before, token.text)
}

// The token before a place.
fn token_before<'t, 'a>(tokens: &'t [Token<'a>], place: usize) -> Option<&'t Token<'a>>
    requires { place ≤ length tokens.now }
    ensures { seen_there result ≡ token_before (toks_of tokens.entry.now) place }
{
    if place == 0 {
        return None;
    }
    Some(&tokens[place - 1])
}

// The token before that one.
fn second_before<'t, 'a>(tokens: &'t [Token<'a>], place: usize) -> Option<&'t Token<'a>>
    requires { place ≤ length tokens.now }
    ensures { seen_there result ≡ second_before (toks_of tokens.entry.now) place }
{
    if place == 0 {
        return None;
    }
    token_before(tokens, place - 1)
}

fn is_left_out_at(tokens: &[Token<'_>], place: usize) -> bool
    requires { place < length tokens.now }
    ensures { result ≡ is_left_out_at (toks_of tokens.now) place }
{
    is_left_out(
        second_before(tokens, place),
        token_before(tokens, place),
        &tokens[place],
    )
}

/// The number of the first token that is a word which this compiler leaves out, from 0, or `None`
/// where there is none.
///
/// Some words of the language stand for things that this compiler doesn't know: encryption, dynamic
/// translation, secondary filters, routing protocols by name and more. A word is left out by its own
/// beginning, as in `crypto:`, or by the tokens before it: behind `{`, `}` or `;`, behind the `=` of
/// `managed`, `routing` or `user`, behind `[`, or behind `,`. The text of a description is no word and
/// no sign.
pub fn left_out(tokens: &[Token<'_>]) -> Option<u32>
    requires { length tokens.now < 2 ^ 32 }
    ensures found { IfSome result (IsFirst (is_left_out_at (toks_of tokens.now))) }
    ensures none { IfNone result (NonePasses (is_left_out_at (toks_of tokens.now))) }
{
    for place in 0..tokens.len() {
        if is_left_out_at(tokens, place) {
            return Some(place as u32);
        }
    }
    None
}
