ghost use Rattle.std.specs.Prelude.{◌≡◌, not, [], ◌∷◌, ◌++◌, if◌then◌else◌, IfOk};
ghost use Rattle.std.specs.Str.{bytes_eq};
ghost use Rattle.std.specs.List.{list_any};

use indexmap::IndexSet;
use spoc_base::NoMemory;
use std::alloc::Global;
use std::marker::Model;

/// Different texts, in the order in which they came.
#[derive(Drop)]
pub(crate) struct Texts<'a> {
    set: IndexSet<&'a [u8]>,
}

impl<'a> Model for Texts<'a> {
    ghost use Rattle.std.specs.Prelude.{List, ℕ, map};

    ghost Value = { List (List ℕ) };

    ghost view = { λ t. map (λ k. k.now) t.set.keys };
}

impl<'a> Texts<'a> {
    /// No texts.
    pub(crate) fn new(alloc: Global) -> Texts<'a>
        ensures { result ≡ [] }
    {
        Texts {
            set: IndexSet::new(alloc),
        }
    }

    /// Adds a text behind the others. False exactly where it is there, and then nothing changes.
    pub(crate) fn add(&mut self, text: &'a [u8]) -> Result<bool, NoMemory>
        ensures added { IfOk result (λ new. new ≡ not (list_any (bytes_eq text.now) self.old)) }
        ensures texts { IfOk result (λ new. self.new ≡ (if new then self.old ++ text.now ∷ [] else self.old)) }
    {
        Ok(self.set.insert(text)?)
    }
}
