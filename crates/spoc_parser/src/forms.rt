ghost use Rattle.std.specs.Prelude.{◌≡◌, ◌≤◌, ◌<◌, ◌+◌, ◌==◌, IsTrue, length, option_map, IfSome, position};
ghost use Rattle.std.specs.List.{list_all};
ghost use Rattle.spoc_parser.specs.Texts.{is_digit, is_name_byte, is_name, has_leading_zero, is_number, value_of, is_number_to, cut_at, are_around, is_octet, is_address, is_prefix, is_range, is_span, is_ports, is_icmp, is_list_key, is_flag, is_filter, is_routing, is_note, fits};

/// How a word, or the text of some words, has to be written.
#[derive(Clone, Copy, Debug, PartialEq, Eq)]
pub enum Form {
    /// Any word.
    Any,
    /// One or more letters, digits, `_` and `-`.
    Name,
    /// Four decimals of 0 to 255 without leading zeros, joined by `.`.
    Address,
    /// An address, `/` and a decimal of 0 to 32 without a leading zero.
    Prefix,
    /// One to five digits without a leading zero.
    Number,
    /// Two addresses joined by `-`.
    Range,
    /// A number or two joined by `-`, or two of these joined by `:`.
    Ports,
    /// A number, or two joined by `/`.
    Icmp,
    /// What `managed` may be set to, without any effect.
    Filter,
    /// What `routing` may be set to.
    Routing,
    /// What may stand behind a protocol's comma.
    Note,
    /// A word that is set to one or more words without effect.
    ListKey,
    /// A word that is set to one word without effect.
    ValueKey,
    /// A word without effect.
    Flag,
}

fn is_digit(byte: u8) -> bool
    ensures { result ≡ is_digit byte }
{
    matches!(byte, b'0'..=b'9')
}

fn is_name_byte(byte: u8) -> bool
    ensures { result ≡ is_name_byte byte }
{
    matches!(byte, b'A'..=b'Z' | b'a'..=b'z' | b'0'..=b'9' | b'_' | b'-')
}

fn are_name_bytes(text: &[u8]) -> bool
    ensures { result ≡ list_all is_name_byte text.now }
{
    text.iter().all(|byte| is_name_byte(*byte))
}

fn are_digits(text: &[u8]) -> bool
    ensures { result ≡ list_all is_digit text.now }
{
    text.iter().all(|byte| is_digit(*byte))
}

// One or more letters, digits, `_` and `-`.
pub fn is_name(text: &[u8]) -> bool
    ensures { result ≡ is_name text.now }
{
    if text.is_empty() {
        return false;
    }
    are_name_bytes(text)
}

fn has_leading_zero(text: &[u8]) -> bool
    ensures { result ≡ has_leading_zero text.now }
{
    match text {
        [first, _, ..] => *first == b'0',
        _ => false,
    }
}

fn is_number(text: &[u8]) -> bool
    ensures { result ≡ is_number text.now }
{
    if text.is_empty() || text.len() > 5 {
        return false;
    }
    if !are_digits(text) {
        return false;
    }
    !has_leading_zero(text)
}

fn value(digits: &[u8]) -> u32
    requires digits { IsTrue (list_all is_digit digits.now) }
    requires few { length digits.now ≤ 5 }
    ensures { result ≡ value_of digits.now }
{
    let mut value: u32 = 0;
    for byte in digits {
        value = 10 * value + u32::from(*byte - b'0');
    }
    value
}

fn is_number_to(most: u32, text: &[u8]) -> bool
    ensures { result ≡ is_number_to most text.now }
{
    if !is_number(text) {
        return false;
    }
    value(text) <= most
}

fn place(text: &[u8], byte: u8) -> Option<usize>
    ensures place { result ≡ position (λ c. c == byte) text.now }
    ensures within { IfSome result (λ at. at < length text.now) }
{
    text.iter().position(|b| *b == byte)
}

// What stands before the first such byte, and what behind it.
pub fn cut(text: &[u8], byte: u8) -> Option<(&[u8], &[u8])>
    ensures parts { option_map (λ parts. (parts.0.now, parts.1.now)) result ≡ cut_at byte text.now }
    ensures within { IfSome result (λ parts. length parts.0.now + 1 + length parts.1.now ≡ length text.now) }
{
    let at = place(text, byte)?;
    Some((&text[..at], &text[at + 1..]))
}

fn is_octet(text: &[u8]) -> bool
    ensures { result ≡ is_octet text.now }
{
    is_number_to(255, text)
}

fn are_two_octets(text: &[u8]) -> bool
    ensures { result ≡ are_around 46 is_octet is_octet text.now }
{
    match cut(text, b'.') {
        Some((third, fourth)) => is_octet(third) && is_octet(fourth),
        None => false,
    }
}

fn are_three_octets(text: &[u8]) -> bool
    ensures { result ≡ are_around 46 is_octet (are_around 46 is_octet is_octet) text.now }
{
    match cut(text, b'.') {
        Some((second, rest)) => is_octet(second) && are_two_octets(rest),
        None => false,
    }
}

// Four numbers from 0 to 255, joined by `.`.
fn is_address(text: &[u8]) -> bool
    ensures { result ≡ is_address text.now }
{
    match cut(text, b'.') {
        Some((first, rest)) => is_octet(first) && are_three_octets(rest),
        None => false,
    }
}

// An address, `/` and a number from 0 to 32.
fn is_prefix(text: &[u8]) -> bool
    ensures { result ≡ is_prefix text.now }
{
    match cut(text, b'/') {
        Some((net, length)) => is_address(net) && is_number_to(32, length),
        None => false,
    }
}

fn is_range(text: &[u8]) -> bool
    ensures { result ≡ is_range text.now }
{
    match cut(text, b'-') {
        Some((least, greatest)) => is_address(least) && is_address(greatest),
        None => false,
    }
}

fn are_two_numbers(text: &[u8], joint: u8) -> bool
    ensures { result ≡ are_around joint is_number is_number text.now }
{
    match cut(text, joint) {
        Some((first, second)) => is_number(first) && is_number(second),
        None => false,
    }
}

// A number, or two joined by `-`.
fn is_span(text: &[u8]) -> bool
    ensures { result ≡ is_span text.now }
{
    is_number(text) || are_two_numbers(text, b'-')
}

fn are_two_spans(text: &[u8]) -> bool
    ensures { result ≡ are_around 58 is_span is_span text.now }
{
    match cut(text, b':') {
        Some((source, destination)) => is_span(source) && is_span(destination),
        None => false,
    }
}

fn is_ports(text: &[u8]) -> bool
    ensures { result ≡ is_ports text.now }
{
    is_span(text) || are_two_spans(text)
}

// A type, or a type and a code.
fn is_icmp(text: &[u8]) -> bool
    ensures { result ≡ is_icmp text.now }
{
    is_number(text) || are_two_numbers(text, b'/')
}

fn is_list_key(text: &[u8]) -> bool
    ensures { result ≡ is_list_key text.now }
{
    text == b"owner".as_slice() || text == b"overlaps".as_slice()
}

fn is_flag(text: &[u8]) -> bool
    ensures { result ≡ is_flag text.now }
{
    text == b"has_subnets".as_slice()
        || text == b"multi_owner".as_slice()
        || text == b"unknown_owner".as_slice()
        || text == b"has_unenforceable".as_slice()
        || text == b"no_check_supernet_rules".as_slice()
}

fn is_filter(text: &[u8]) -> bool
    ensures { result ≡ is_filter text.now }
{
    text == b"standard".as_slice() || text == b"full".as_slice() || text == b"primary".as_slice()
}

fn is_routing(text: &[u8]) -> bool
    ensures { result ≡ is_routing text.now }
{
    text == b"dynamic".as_slice() || text == b"manual".as_slice()
}

fn is_note(text: &[u8]) -> bool
    ensures { result ≡ is_note text.now }
{
    text == b"overlaps".as_slice() || text == b"no_check_supernet_rules".as_slice()
}

impl Form {
    // Whether a text is written in this form.
    pub fn fits(self, text: &[u8]) -> bool
        ensures { result ≡ fits self text.now }
    {
        match self {
            Form::Any => true,
            Form::Name => is_name(text),
            Form::Address => is_address(text),
            Form::Prefix => is_prefix(text),
            Form::Number => is_number(text),
            Form::Range => is_range(text),
            Form::Ports => is_ports(text),
            Form::Icmp => is_icmp(text),
            Form::Filter => is_filter(text),
            Form::Routing => is_routing(text),
            Form::Note => is_note(text),
            Form::ListKey => is_list_key(text),
            Form::ValueKey => text == b"subnet_of".as_slice(),
            Form::Flag => is_flag(text),
        }
    }
}
