use crate::word::{PortName, Word};

/// A set of objects: its parts, which commas divide.
#[cycle(trees)]
#[derive(Clone, Copy)]
pub struct SetTree<'a> {
    pub inters: &'a [InterTree<'a>],
}

/// A part of a set: a term, and the further terms behind each `&`.
#[cycle(trees)]
#[derive(Clone, Copy)]
pub struct InterTree<'a> {
    pub first: TermTree<'a>,
    pub rest: &'a [FurtherTree<'a>],
}

/// A further term of a part. Where `without` is true, a `!` stands before it.
#[cycle(trees)]
#[derive(Clone, Copy)]
pub struct FurtherTree<'a> {
    pub without: bool,
    pub term: TermTree<'a>,
}

/// A named thing, `user`, or the things of a set in brackets.
#[cycle(trees)]
#[derive(Clone, Copy)]
pub enum TermTree<'a> {
    Network(Word<'a>),
    Host(Word<'a>),
    Port(PortName<'a>),
    Group(Word<'a>),
    Aggregate(Word<'a>),
    Area(Word<'a>),
    User,
    /// `network:[..]`
    Nets(SetTree<'a>),
    /// `host:[..]`
    Hosts(SetTree<'a>),
    /// `any:[..]`, with the prefix behind `ip =` where there is one.
    Anys(Option<Word<'a>>, SetTree<'a>),
}
