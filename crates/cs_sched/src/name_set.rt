//! The names of the genesis objects so far.
ghost use Rattle.std.specs.Prelude.{◌≡◌, ◌∷◌, ◌++◌, [], not, IfOk, if◌then◌else◌};
ghost use Rattle.cs_tx.specs.GenesisNames.{is_known};

use cs_base::Memory;
use cs_tx::Digest;
use indexmap::IndexSet;
use std::alloc::Global;
use std::marker::Model;

/// A list of names in which each stands once, that is searched without going through it.
#[derive(Drop)]
pub struct NameSet {
    names: IndexSet<Digest>,
}

impl Model for NameSet {
    ghost use Rattle.std.specs.Prelude.{List, ℕ};

    ghost Value = { List (List ℕ) };

    ghost view = { λ s. s.names.keys };
}

impl NameSet {
    /// No name.
    pub fn new(alloc: Global) -> NameSet
        ensures { result ≡ [] }
    {
        NameSet {
            names: IndexSet::new(alloc),
        }
    }

    /// Adds a name at the end, or answers false where it is there already.
    pub fn insert(&mut self, name: Digest) -> Result<bool, Memory>
        ensures added { IfOk result (λ added. added ≡ not (is_known name self.old)) }
        ensures names { IfOk result (λ added.
            self.new ≡ (if added then self.old ++ name ∷ [] else self.old)) }
    {
        Ok(self.names.insert(name)?)
    }
}
