//! A store in memory.
ghost use Rattle.std.specs.Prelude.{◌≡◌, ◌≢◌, Some, option_copied, option_map};
ghost use Rattle.cs_base.specs.Outside.{HasCause};
ghost use Rattle.cs_io.specs.Told.{Stays};
ghost use Rattle.cs_io.specs.Store.{Loads, Saves};

use crate::files::{content_of, put};
use crate::store::{Loaded, Saved, Store};
use cs_base::Failures;
use std::alloc::Global;

/// A store of files that it keeps in memory. The listed calls fail, and no others, unless memory
/// runs out; what isn't saved leaves the old content.
#[derive(Drop)]
pub struct MemStore {
    alloc: Global,
    files: Vec<(String, Vec<u8>)>,
    failures: Failures,
}

impl MemStore {
    ghost use Rattle.cs_base.specs.Failures.{uncalled};
    ghost use Rattle.cs_io.specs.Files.{content_in};
    ghost use Rattle.cs_io.specs.InMemory.{store_failures};

    /// A store of these files, whose calls of these numbers, counted from 0, fail. Of files with
    /// one name the first counts.
    pub fn new(alloc: Global, files: Vec<(String, Vec<u8>)>, fails: Vec<u32>) -> Self
        ensures files { ⟦<MemStore as Store>⟧.files result ≡ Some (content_in files.items) }
        ensures faults { ⟦<MemStore as Store>⟧.faults result ≡ 0 }
        ensures failures { store_failures result ≡ uncalled fails.items }
    {
        MemStore {
            alloc,
            files,
            failures: Failures::new(fails),
        }
    }

    /// What stands in the file of this name, where there is one.
    pub fn content(&self, name: &str) -> Option<&[u8]>
        ensures { option_map (λ files. files name.now) (⟦<MemStore as Store>⟧.files self.now)
            ≡ Some (option_copied result) }
    {
        content_of(&self.files, name)
    }
}

impl Store for MemStore {
    ghost use Rattle.cs_base.specs.Failures.{CountsCall};
    ghost use Rattle.cs_io.specs.InMemory.{store_files, store_faults, store_failures};

    ghost files = { store_files };

    ghost faults = { store_faults };

    fn load(&mut self, name: &str, limit: usize, into: &mut Vec<u8>) -> Loaded
        ensures content { Loads (store_files self.old) name.now limit into.new.items result }
        ensures kept { Stays (store_files self.old) (store_files self.new) }
        ensures cause { HasCause (store_faults self.old) (store_faults self.new)
            (result ≡ Loaded.Failed) }

        // Exactly the listed calls fail.
        ensures counted { CountsCall (store_failures self.old) (store_failures self.new)
            (result ≡ Loaded.Failed) }
    {
        into.clear();
        if self.failures.is_due() {
            return Loaded::Failed;
        }
        let Some(content) = content_of(&self.files, name) else {
            return Loaded::Absent;
        };
        if content.len() > limit {
            return Loaded::TooLong;
        }
        match into.extend_from_slice(content) {
            Ok(()) => Loaded::Done,
            Err(_) => Loaded::Memory,
        }
    }

    fn save(&mut self, name: &str, bytes: &[u8]) -> Saved
        ensures content { Saves
            (store_files self.old) (store_files self.new) name.now bytes.now result }
        ensures cause { HasCause (store_faults self.old) (store_faults self.new)
            (result ≡ Saved.Failed) }

        // Exactly the listed calls fail.
        ensures counted { CountsCall (store_failures self.old) (store_failures self.new)
            (result ≡ Saved.Failed) }

        // What isn't saved leaves the old content.
        ensures kept { result ≢ Saved.Done → Stays (store_files self.old) (store_files self.new) }
    {
        if self.failures.is_due() {
            return Saved::Failed;
        }
        match put(self.alloc, &mut self.files, name, bytes) {
            Ok(()) => Saved::Done,
            Err(_) => Saved::Memory,
        }
    }
}
