// Bytes to tokens, and what is looked at in tokens.
use spoc_lexer::{LexFail, Token, TokenKind, tokens};
use std::alloc::Global;
use std::process::Abort;
use std::test::Fail;
use token_checks::{left_out, too_deep};

const TEXT: &[u8] =
    b"# a=\nnet:a-1 = {\r\n\tdescription # b\n =to # {b}\n description=\n ip=1.0/8;\n}[]&!x_Y,";

static TOKENS: [(TokenKind, &'static [u8], u32); 20] = [
    (TokenKind::Word, b"net:a-1", 5),
    (TokenKind::Sign, b"=", 13),
    (TokenKind::Sign, b"{", 15),
    (TokenKind::Word, b"description", 19),
    (TokenKind::Sign, b"=", 36),
    (TokenKind::Description, b"to # {b}", 37),
    (TokenKind::Word, b"description", 47),
    (TokenKind::Sign, b"=", 58),
    (TokenKind::Description, b"", 59),
    (TokenKind::Word, b"ip", 61),
    (TokenKind::Sign, b"=", 63),
    (TokenKind::Word, b"1.0/8", 64),
    (TokenKind::Sign, b";", 69),
    (TokenKind::Sign, b"}", 71),
    (TokenKind::Sign, b"[", 72),
    (TokenKind::Sign, b"]", 73),
    (TokenKind::Sign, b"&", 74),
    (TokenKind::Sign, b"!", 75),
    (TokenKind::Word, b"x_Y", 76),
    (TokenKind::Sign, b",", 79),
];

fn compare(rt: &impl Abort, found: &[Token<'_>], rows: &[(TokenKind, &[u8], u32)]) {
    assert_eq!(rt; found.len(), rows.len());
    for (token, (kind, want, start)) in found.iter().zip(rows.iter()) {
        assert_eq!(rt; token.kind, *kind, "kind at {start}");
        assert!(rt; token.text == *want, "text at {start}");
        assert_eq!(rt; token.start, *start);
    }
}

// Each kind of token and where it stands, and the first byte that begins none.
#[test]
fn each_kind_of_token(rt: HostRuntime) -> Result<(), Fail> {
    let found = tokens(rt.alloc(), TEXT)?;
    compare(&rt, &found, &TOKENS);
    assert!(rt; matches!(tokens(rt.alloc(), b"a = (b)"), Err(LexFail::Lex(4))));
    Ok(())
}

// ---- words that are left out, and levels of brackets

const PART_WORDS: &str =
    "dynamic identity crypto hub spoke bridged unnumbered negotiated loopback vip no_in_acl std_in_acl no_group_code filter_only log_deny inclusive_border router_attributes nat_in nat_out disabled disable_at policy_distribution_point general_permit";

const VALUE_WORDS: &str = "secondary local routing_only OSPF EIGRP RIPv2 foreach";

const LIST_WORDS: &str = "stateless oneway reversed src_net dst_net src_any dst_any";

const BEGINNINGS: &str = "crypto:v ipsec:i isakmp:i owner:o secondary:s host:id:h owner:";

// Words, with what stands before them in their place and how many tokens that is, and what stands before them elsewhere.
static LEFT_OUT: [(&'static str, u32, &'static str, &'static str); 11] = [
    ("n {", 2, PART_WORDS, "n { m ,"),
    ("{ }", 2, PART_WORDS, ""),
    ("a = b ;", 4, PART_WORDS, "a = b"),
    ("managed =", 2, VALUE_WORDS, "model ="),
    ("{ routing =", 3, VALUE_WORDS, "routing = ["),
    ("user =", 2, VALUE_WORDS, "; user"),
    ("interface:r. [", 2, "auto all", "interface:r. {"),
    ("p = tcp 80 ,", 5, LIST_WORDS, "p = tcp 80 &"),
    ("", 0, BEGINNINGS, "description ="),
    ("a =", 2, BEGINNINGS, "description = b"),
    ("description = a { \n", 3, BEGINNINGS, "description = \t"),
];

static TEXTS: [(&'static [u8], Option<u32>); 8] = [
    (b"", None),
    (b"disabled", None),
    (b"description = ; {\nvip ;", None),
    (b"{ description =managed\n= secondary ;", None),
    (b"description = a\n ; vip", Some(4)),
    (b"{ disableds ; disabled ; vip", Some(3)),
    (
        b"{ hidden ; } virtual = { ; deny ; } deny ; virtual { hidden",
        None,
    ),
    (b"a = crypto ; crypto; owner:o", Some(4)),
];

static LEVELS: [(&'static [u8], Option<u32>); 9] = [
    (b"", None),
    (b"[[[[[[[[[[[[[[[[", None),
    (b"[[[[[[[[[[[[[[[[[", Some(16)),
    (b"{[{[{[{[{[{[{[{[ a ] b { c { d", Some(21)),
    (b"[[[[[[[[[[[[[[[[ }] [[", None),
    (b"[[[[[[[[[[[[[[[[ }] [[[ [", Some(20)),
    (b"]}]} [[[[[[[[[[[[[[[[ ; [", Some(21)),
    (b"[[[[[[[[[[[[[[[[ description = [[[\n ;", None),
    (b"[[[[[[[[[[[[[[[[ description = ]]]\n [", Some(19)),
];

fn first_left_out(alloc: Global, text: &[u8]) -> Result<Option<u32>, Fail> {
    if text.len() > 1000 {
        return Err(Fail::from("the text is too long"));
    }
    let tokens = tokens(alloc, text)?;
    if tokens.len() > 1000 {
        return Err(Fail::from("there are too many tokens"));
    }
    Ok(left_out(&tokens))
}

fn first_too_deep(alloc: Global, text: &[u8]) -> Result<Option<u32>, Fail> {
    if text.len() > 1000 {
        return Err(Fail::from("the text is too long"));
    }
    let tokens = tokens(alloc, text)?;
    if tokens.len() > 1000 {
        return Err(Fail::from("there are too many tokens"));
    }
    Ok(too_deep(&tokens))
}

// The text before, and then the word.
fn left_out_behind(alloc: Global, before: &str, word: &str) -> Result<Option<u32>, Fail> {
    let text = format!(in alloc; "{before} {word} ;")?;
    first_left_out(alloc, text.as_bytes())
}

// Each word in its place, with the number of the tokens before it, and in another place.
#[test]
fn words_that_are_left_out(rt: HostRuntime) -> Result<(), Fail> {
    for (before, place, words, elsewhere) in &LEFT_OUT {
        for word in words.split(' ') {
            let found = left_out_behind(rt.alloc(), before, word)?;
            assert!(rt; found == Some(*place), "{before} {word}");
            let found = left_out_behind(rt.alloc(), elsewhere, word)?;
            assert!(rt; found.is_none(), "{elsewhere} {word}");
        }
    }
    Ok(())
}

#[test]
fn texts_with_words_that_are_left_out(rt: HostRuntime) -> Result<(), Fail> {
    for (text, want) in &TEXTS {
        assert!(rt; first_left_out(rt.alloc(), text)? == *want, "{want:?}");
    }
    Ok(())
}

// Sixteen levels and a seventeenth.
#[test]
fn levels_of_brackets(rt: HostRuntime) -> Result<(), Fail> {
    for (text, want) in &LEVELS {
        assert!(rt; first_too_deep(rt.alloc(), text)? == *want, "{want:?}");
    }
    Ok(())
}
