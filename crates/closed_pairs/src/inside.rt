ghost use Rattle.std.specs.Prelude.{◌≡◌, ◌<◌, ◌++◌, length, map, filter, flat_map, IfOk, ◌&&◌, ◌==◌};
ghost use Rattle.policy_model.specs.Blocks.{all_pairs};
ghost use Rattle.nat_view.specs.Sights.{sight_of};
ghost use Rattle.closed_pairs.specs.Seen.{nets_seen};
ghost use Rattle.closed_pairs.specs.Reaching.{encloses_in, others_from};

use nat_view::View;
use spoc_base::{NetId, NoMemory};
use std::alloc::Global;

// Whether the two pairs have the same networks.
fn is_same(pair: (NetId, NetId), src: NetId, dst: NetId) -> bool
    ensures { result ≡ ((src.0 == pair.0.0) && (dst.0 == pair.1.0)) }
{
    src.0 == pair.0.0 && dst.0 == pair.1.0
}

// Puts the pairs from a network to others behind those that are there, without this one pair.
fn push_pairs(
    pairs: &mut Vec<(NetId, NetId)>,
    src: NetId,
    dsts: &[NetId],
    without: (NetId, NetId),
) -> Result<(), NoMemory>
    ensures { IfOk result (λ done. map nets_seen pairs.new.items ≡ map nets_seen pairs.old.items ++ others_from (nets_seen without) (map (λ n. n.0) dsts.now) src.0) }
{
    for dst in dsts {
        if !is_same(without, src, *dst) {
            pairs.push((src, *dst))?;
        }
    }
    Ok(())
}

// Puts the pairs from some networks to others behind those that are there, source by source,
// without this one pair.
fn push_rows(
    pairs: &mut Vec<(NetId, NetId)>,
    srcs: &[NetId],
    dsts: &[NetId],
    without: (NetId, NetId),
) -> Result<(), NoMemory>
    ensures { IfOk result (λ done. map nets_seen pairs.new.items ≡ map nets_seen pairs.old.items ++ flat_map (others_from (nets_seen without) (map (λ n. n.0) dsts.now)) (map (λ n. n.0) srcs.now)) }
{
    for src in srcs {
        push_pairs(pairs, *src, dsts, without)?;
    }
    Ok(())
}

/// The pairs of networks that lie inside a pair where the view is: each network inside the source
/// with each inside the destination, by number, without the pair itself. Equal prefixes count. There
/// are none where one of the pair's networks is hidden.
pub fn pairs_inside(
    alloc: Global,
    view: View<'_>,
    src: NetId,
    dst: NetId,
) -> Result<Vec<(NetId, NetId)>, NoMemory>
    requires src { src.0 < length (sight_of view).policy.nets }
    requires dst { dst.0 < length (sight_of view).policy.nets }
    ensures { IfOk result (λ v. map nets_seen v.items ≡ filter (encloses_in (sight_of view.entry).policy (sight_of view.entry).tags (record { src = src.0; dst = dst.0 })) (all_pairs (sight_of view.entry).policy)) }
{
    let mut pairs = Vec::new(alloc);
    let Some(outer_src) = view.seen_prefix(src) else {
        return Ok(pairs);
    };
    let Some(outer_dst) = view.seen_prefix(dst) else {
        return Ok(pairs);
    };
    let srcs = view.inside(alloc, outer_src)?;
    let dsts = view.inside(alloc, outer_dst)?;
    push_rows(&mut pairs, &srcs, &dsts, (src, dst))?;
    Ok(pairs)
}
