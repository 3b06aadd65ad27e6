ghost use Rattle.std.specs.Prelude.{◌≡◌, ◌≤◌, ◌<◌, ◌==◌, IsTrue, IfSome, length, not, option_map, position};
ghost use Rattle.std.specs.List.{list_all};
ghost use Rattle.device_lines.specs.Numbers as plain;

use spoc_base::Addr;

fn is_digit(byte: u8) -> bool
    ensures { result ≡ plain.is_digit byte }
{
    matches!(byte, b'0'..=b'9')
}

fn are_digits(text: &[u8]) -> bool
    ensures { result ≡ list_all plain.is_digit text.now }
{
    text.iter().all(|byte| is_digit(*byte))
}

fn has_leading_zero(text: &[u8]) -> bool
    ensures { result ≡ plain.has_leading_zero text.now }
{
    match text {
        [first, _, ..] => *first == b'0',
        _ => false,
    }
}

fn is_number(text: &[u8]) -> bool
    ensures { result ≡ plain.is_number text.now }
{
    if text.is_empty() || text.len() > 5 {
        return false;
    }
    if !are_digits(text) {
        return false;
    }
    !has_leading_zero(text)
}

fn value(digits: &[u8]) -> u32
    requires digits { IsTrue (list_all plain.is_digit digits.now) }
    requires few { length digits.now ≤ 5 }
    ensures { result ≡ plain.value_of digits.now }
{
    let mut value: u32 = 0;
    for byte in digits {
        value = 10 * value + u32::from(*byte - b'0');
    }
    value
}

fn number(text: &[u8]) -> Option<u32>
    ensures { result ≡ plain.number_of text.now }
{
    if !is_number(text) {
        return None;
    }
    Some(value(text))
}

/// A number from 0 to 255, in decimal without leading zeros.
pub fn byte(text: &[u8]) -> Option<u8>
    ensures { result ≡ plain.number_to 255 text.now }
{
    let number = number(text)?;
    if number <= 255 {
        Some(number as u8)
    } else {
        None
    }
}

/// A number from 0 to 65535, in decimal without leading zeros.
pub fn port(text: &[u8]) -> Option<u16>
    ensures { result ≡ plain.number_to 65535 text.now }
{
    let number = number(text)?;
    if number <= 65535 {
        Some(number as u16)
    } else {
        None
    }
}

fn dot(text: &[u8]) -> Option<usize>
    ensures place { result ≡ position (λ c. c == 46) text.now }
    ensures within { IfSome result (λ at. at < length text.now) }
{
    text.iter().position(|b| *b == b'.')
}

// What stands before the first dot and what behind it.
fn cut(text: &[u8]) -> Option<(&[u8], &[u8])>
    ensures { option_map (λ parts. (parts.0.now, parts.1.now)) result ≡ plain.cut_at 46 text.now }
{
    let at = dot(text)?;
    Some((&text[..at], &text[at + 1..]))
}

fn joined(a: u8, b: u8, c: u8, d: u8) -> Addr
    ensures { result.0 ≡ plain.address_from a b c d }
{
    Addr(16777216 * u32::from(a) + 65536 * u32::from(b) + 256 * u32::from(c) + u32::from(d))
}

/// Four numbers from 0 to 255, joined by dots.
pub fn address(text: &[u8]) -> Option<Addr>
    ensures { option_map (λ a. a.0) result ≡ plain.address_of text.now }
{
    let (first, rest) = cut(text)?;
    let (second, rest) = cut(rest)?;
    let (third, fourth) = cut(rest)?;
    Some(joined(byte(first)?, byte(second)?, byte(third)?, byte(fourth)?))
}
