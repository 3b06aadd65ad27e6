ghost use Rattle.std.specs.Prelude.{◌≡◌, option_map};
ghost use Rattle.spoc_ast.specs.Seen.{word_seen};
ghost use Rattle.policy_decls.specs.Numbers as plain;
ghost use Rattle.policy_decls.specs.Shapes as shapes;
ghost use Rattle.policy_shapes.specs.Seen.{block_seen};

use crate::block::Block;
use policy_numbers::prefix;
use spoc_ast::Word;

/// What a word says, where it is a prefix.
pub(crate) fn block(word: &Word<'_>) -> Option<Block>
    ensures { option_map block_seen result ≡ plain.prefix_of word.now.text.now }
{
    let (net, len) = prefix(word.text)?;
    Some(Block { net, len })
}

/// Whether a word is a prefix with a host bit.
pub(crate) fn is_unaligned(word: &Word<'_>) -> bool
    ensures { result ≡ shapes.is_unaligned (word_seen word.now) }
{
    match block(word) {
        Some(block) => block.has_host_bit(),
        None => false,
    }
}
