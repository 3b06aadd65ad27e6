ghost use Rattle.std.proofs.Props.{props};
ghost use Rattle.spoc_parser.specs.Reach.{AreInReach};

use bumpalo::Bump;
use spoc_lexer::Token;

// What trees are made of: the number of their file, and the arena in which they lie.
#[derive(Clone, Copy)]
pub struct Source<'a> {
    pub arena: &'a Bump,
    pub file: u32,
}

// The tokens that are left.
#[derive(Drop)]
pub struct Cursor<'a, 't> {
    pub rest: &'t [Token<'a>],
    pub ghost within: { AreInReach rest.now } by { Prim.hlevel props },
}
