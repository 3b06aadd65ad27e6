ghost use Rattle.std.specs.Prelude.{◌≡◌, ◌++◌, ◌∷◌, [], map, flat_map, take, IfOk, OnOk};
ghost use Rattle.std.proofs.Props.{props};
ghost use Rattle.spoc_base.specs.Shown.{box_of};
ghost use Rattle.policy_build.specs.Protocols.{AreProtocols};

use crate::boxes::simple_box;
use crate::protocols::Protocols;
use crate::scope::Scope;
use bumpalo::Bump;
use bumpalo::collections::into_bump_slice;
use spoc_ast::{Prt, Simple, Word};
use spoc_base::{NoMemory, TBox};

/// How many protocols and groups are looked at for one rule at most. Below each box stand 66 of
/// them or fewer, since groups nest 64 deep.
const MOST_STEPS: u32 = 264_000_000;

/// By what the protocols of rules are expanded.
#[derive(Clone, Copy)]
pub(crate) struct Expander<'a, 't> {
    pub(crate) scope: Scope<'a, 't>,
    pub(crate) protocols: &'t Protocols<'a>,
    /// How deep groups nest at most.
    pub(crate) depth: u8,
    /// How many boxes of a rule are kept at most.
    pub(crate) most: usize,
    pub(crate) ghost known: { AreProtocols scope protocols.now } by { Prim.hlevel props },
}

/// The boxes of a rule so far, and how many protocols and groups were looked at.
#[derive(Drop)]
struct Boxes<'a> {
    found: Vec<TBox, &'a Bump>,
    steps: u32,
}

impl<'a> Boxes<'a> {
    // One more protocol is looked at, unless there were too many.
    fn step(&mut self) -> Result<(), NoMemory>
        ensures { OnOk result (self.new.found ≡ self.old.found) }
    {
        if self.steps >= MOST_STEPS {
            return Err(NoMemory);
        }
        self.steps += 1;
        Ok(())
    }

    fn push(&mut self, found: TBox) -> Result<(), NoMemory>
        ensures { OnOk result (self.new.found.items ≡ self.old.found.items ++ found ∷ []) }
    {
        let Ok(()) = self.found.push(found) else {
            return Err(NoMemory);
        };
        Ok(())
    }
}

impl<'a, 't> Expander<'a, 't> {
    ghost use Rattle.spoc_ast.specs.Written.{PrtSimple, PrtProtocol, PrtGroup};
    ghost use Rattle.spoc_ast.specs.Seen.{word_seen, prt_seen, simple_seen};
    ghost use Rattle.policy_build.specs.Views.{decls_of};
    ghost use Rattle.policy_build.specs.Fair.{fair_boxes};

    /// The first boxes that the protocols of a rule permit, in order and with repeats, as many as are
    /// kept. Want of memory is also answered where more than 264,000,000 protocols and groups were
    /// looked at before so many boxes were found.
    pub(crate) fn boxes(self, prts: &[Prt<'a>]) -> Result<&'a [TBox], NoMemory>
        ensures { IfOk result (λ found. map box_of found.now ≡ take self.entry.most (flat_map (fair_boxes (decls_of self.entry.scope) self.entry.depth) (map prt_seen prts.now))) }
    {
        let mut boxes = Boxes {
            found: Vec::new(self.scope.arena),
            steps: 0,
        };
        self.add_all(self.depth, prts, &mut boxes)?;
        boxes.found.truncate(self.most);
        Ok(into_bump_slice(boxes.found))
    }

    // Adds the boxes of these protocols, or the first of them: with those that are there, as many
    // as are kept.
    #[cycle(expand)]
    fn add_all(self, depth: u8, prts: &[Prt<'a>], boxes: &mut Boxes<'a>) -> Result<(), NoMemory>
        ensures { OnOk result (take self.entry.most (map box_of boxes.new.found.items) ≡ take self.entry.most (map box_of boxes.old.found.items ++ flat_map (fair_boxes (decls_of self.entry.scope) depth) (map prt_seen prts.now))) }
    {
        for prt in prts {
            self.add(depth, prt, boxes)?;
        }
        Ok(())
    }

    #[cycle(expand)]
    fn add(self, depth: u8, prt: &Prt<'a>, boxes: &mut Boxes<'a>) -> Result<(), NoMemory>
        ensures { OnOk result (take self.entry.most (map box_of boxes.new.found.items) ≡ take self.entry.most (map box_of boxes.old.found.items ++ fair_boxes (decls_of self.entry.scope) depth (prt_seen prt.now))) }
    {
        if boxes.found.len() >= self.most {
            return Ok(());
        }
        boxes.step()?;
        match prt {
            Prt::Simple(simple) => self.add_simple(depth, simple, boxes),
            Prt::Protocol(name) => self.add_protocol(depth, *name, boxes),
            Prt::Group(name) => self.add_group(depth, *name, boxes),
        }
    }

    #[cycle(expand)]
    fn add_group(self, depth: u8, name: Word<'a>, boxes: &mut Boxes<'a>) -> Result<(), NoMemory>
        ensures { OnOk result (take self.entry.most (map box_of boxes.new.found.items) ≡ take self.entry.most (map box_of boxes.old.found.items ++ fair_boxes (decls_of self.entry.scope) depth (PrtGroup (word_seen name.entry)))) }
    {
        if depth == 0 {
            return Ok(());
        }
        match self.protocols.members(self.scope, name) {
            Some(prts) => self.add_all(depth - 1, prts, boxes),
            None => Ok(()),
        }
    }

    fn add_protocol(self, depth: u8, name: Word<'a>, boxes: &mut Boxes<'a>) -> Result<(), NoMemory>
        ensures { OnOk result (map box_of boxes.new.found.items ≡ map box_of boxes.old.found.items ++ fair_boxes (decls_of self.entry.scope) depth (PrtProtocol (word_seen name.entry))) }
    {
        if depth == 0 {
            return Ok(());
        }
        match self.protocols.simple(self.scope, name) {
            Some(simple) => self.add_simple(depth - 1, &simple, boxes),
            None => Ok(()),
        }
    }

    fn add_simple(
        self,
        depth: u8,
        simple: &Simple<'a>,
        boxes: &mut Boxes<'a>,
    ) -> Result<(), NoMemory>
        ensures { OnOk result (map box_of boxes.new.found.items ≡ map box_of boxes.old.found.items ++ fair_boxes (decls_of self.entry.scope) depth (PrtSimple (simple_seen simple.now))) }
    {
        let found = simple_box(self.scope.alloc, simple)?;
        boxes.push(found)
    }
}
