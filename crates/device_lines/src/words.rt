ghost use Rattle.std.specs.Prelude.{◌≡◌, ◌≤◌, ◌==◌, Some, length, option_map, position, bytes_eq};
ghost use Rattle.std.specs.List.{list_all, position_or_len, slice_split};
ghost use Rattle.spoc_base.specs.Spelling as spelling;
ghost use Rattle.policy_model.specs.Lists.{is_nothing};
ghost use Rattle.device_lines.specs.Entries as plain;
ghost use Rattle.device_lines.specs.Lines as lines;
ghost use Rattle.device_lines.specs.Seen.{words_of};

fn space(text: &[u8]) -> Option<usize>
    ensures { result ≡ position (λ c. c == 32) text.now }
{
    text.iter().position(|b| *b == b' ')
}

// How long the first word of a text is.
#[tactic(auto, using(crate::proofs::WordLaws::place_found, crate::proofs::WordLaws::place_missing, crate::proofs::WordLaws::within))]
fn word_length(text: &[u8]) -> usize
    ensures place { result ≡ position_or_len (λ c. c == 32) text.now }
    ensures within { result ≤ length text.now }
{
    match space(text) {
        Some(at) => at,
        None => text.len(),
    }
}

/// The first word of a text, and what is left of the text: the words behind it, each with the space before it.
pub fn cut<'t>(text: &'t [u8]) -> (&'t [u8], &'t [u8])
    ensures { Some (result.0.now, words_of result.1.now) ≡ plain.first_word (slice_split (λ c. c == 32) text.now) }
{
    let at = word_length(text);
    (&text[..at], &text[at..])
}

/// The first word, and the words behind it.
pub fn first_word<'t>(words: &'t [u8]) -> Option<(&'t [u8], &'t [u8])>
    ensures { option_map (λ r. (r.0.now, words_of r.1.now)) result ≡ plain.first_word (words_of words.now) }
{
    match words {
        [] => None,
        [_, text @ ..] => Some(cut(text)),
    }
}

/// Whether all words were read.
#[tactic(auto, using(crate::proofs::WordLaws::ended))]
pub fn is_end(words: &[u8]) -> bool
    ensures { result ≡ is_nothing (words_of words.now) }
{
    words.is_empty()
}

/// The one word that is left, and `None` where there is none or more.
pub fn only_word<'t>(words: &'t [u8]) -> Option<&'t [u8]>
    ensures { option_map (λ w. w.now) result ≡ plain.only_word (words_of words.now) }
{
    let (word, rest) = first_word(words)?;
    if is_end(rest) { Some(word) } else { None }
}

fn is_word_byte(b: u8) -> bool
    ensures { result ≡ spelling.is_word_byte b }
{
    matches!(b, b'A'..=b'Z' | b'a'..=b'z' | b'0'..=b'9' | b'_' | b'.' | b':' | b'/' | b'-')
}

fn are_word_bytes(word: &[u8]) -> bool
    ensures { result ≡ list_all spelling.is_word_byte word.now }
{
    word.iter().all(|b| is_word_byte(*b))
}

fn is_name(word: &[u8]) -> bool
    ensures { result ≡ plain.is_name word.now }
{
    if word.is_empty() {
        return false;
    }
    are_word_bytes(word)
}

/// The first word, where it is a name, and the words behind it.
pub fn take_name<'t>(words: &'t [u8]) -> Option<(&'t [u8], &'t [u8])>
    ensures { option_map (λ r. (r.0.now, words_of r.1.now)) result ≡ lines.take_name (words_of words.now) }
{
    let (word, rest) = first_word(words)?;
    if is_name(word) {
        Some((word, rest))
    } else {
        None
    }
}

/// The one word that is left, where it is a name.
pub fn only_name<'t>(words: &'t [u8]) -> Option<&'t [u8]>
    ensures { option_map (λ w. w.now) result ≡ lines.only_name (words_of words.now) }
{
    let (name, rest) = take_name(words)?;
    if is_end(rest) { Some(name) } else { None }
}

/// The words behind this one, where it stands first.
pub fn behind_word<'t>(word: &[u8], words: &'t [u8]) -> Option<&'t [u8]>
    ensures { option_map (λ r. words_of r.now) result ≡ lines.behind_word word.now (words_of words.now) }
{
    let (first, rest) = first_word(words)?;
    if first == word { Some(rest) } else { None }
}
