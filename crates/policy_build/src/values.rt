ghost use Rattle.std.specs.Prelude.{◌≡◌, option_map, option_and_then};
ghost use Rattle.spoc_base.specs.Shown.{cidr_of};
ghost use Rattle.spoc_ast.specs.Seen.{word_seen};
ghost use Rattle.policy_decls.specs.Said.{cidr_or_any};
ghost use Rattle.policy_build.specs.Aligned.{aligned_prefix};

use spoc_ast::Word;
use spoc_base::{Addr, Prefix};

/// The prefix that a word says, None where it says none, or where a host bit is set.
pub(crate) fn prefix(word: Word<'_>) -> Option<Prefix>
    ensures { option_map cidr_of result ≡ aligned_prefix (word_seen word.entry) }
{
    let (net, len) = policy_numbers::prefix(word.text)?;
    Prefix::new(net, len)
}

/// The prefix that a word says, where there is a word.
pub(crate) fn prefix_in(word: Option<Word<'_>>) -> Option<Prefix>
    ensures { option_map cidr_of result ≡ option_and_then aligned_prefix (option_map word_seen word.entry) }
{
    match word {
        Some(word) => prefix(word),
        None => None,
    }
}

/// The prefix, or that of all addresses.
pub(crate) fn or_any(prefix: Option<Prefix>) -> Prefix
    ensures { cidr_of result ≡ cidr_or_any (option_map cidr_of prefix) }
{
    match prefix {
        Some(prefix) => prefix,
        None => Prefix::new(Addr(0), 0).unwrap(),
    }
}
