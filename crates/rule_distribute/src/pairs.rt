ghost use Rattle.std.specs.Prelude.{◌≡◌};
ghost use Rattle.rule_distribute.specs.Pairs.{AreOnce};

/// Two numbers.
pub(crate) type Pair = (u32, u32);

/// Puts the pairs in order, each once.
pub(crate) fn once_each(pairs: &mut Vec<Pair>)
    ensures { AreOnce pairs.old.items pairs.new.items }
{
    pairs.sort_unstable();
    pairs.dedup();
}
