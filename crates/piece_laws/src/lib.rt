//! Laws of boxes of headers: one box without another, in pieces.
//! The functions here do nothing: each has a law as its contract.
#![tactic(auto)]

ghost use Rattle.spoc_base.specs.Pieces.{HeaderBox, difference};
ghost use Rattle.spoc_base.specs.PlainSets.{IsUnmarked};
ghost use Rattle.piece_laws.specs.HeaderBoxes.{IsHeaderBox};
ghost use Rattle.piece_laws.specs.Differences.{IsDifference};

/// The pieces of a difference hold each header of it once, and no other. They are proper boxes, and there are at most 768.
pub fn differences_are_exact()
    ensures { (a b : HeaderBox) → IsHeaderBox a → IsHeaderBox b → IsUnmarked a.transport → IsUnmarked b.transport → IsDifference a b (difference a b) }
{}
