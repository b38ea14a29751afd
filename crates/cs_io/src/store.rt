//! Where files are kept, by what stands in them, and by how often it failed.
ghost use Rattle.std.specs.Prelude.{◌≡◌, ℕ, Option};
ghost use Rattle.cs_base.specs.Outside.{HasCause};
ghost use Rattle.cs_io.specs.Told.{Stays};
ghost use Rattle.cs_io.specs.Store.{Files, Loads, Saves};

/// What came of loading a file.
#[derive(Clone, Copy, Debug, PartialEq, Eq)]
pub enum Loaded {
    /// The file's content was given.
    Done,
    /// There is no file of this name.
    Absent,
    /// The file is longer than the limit.
    TooLong,
    /// The store failed.
    Failed,
    /// There was not enough memory.
    Memory,
}

/// What came of saving a file.
#[derive(Clone, Copy, Debug, PartialEq, Eq)]
pub enum Saved {
    /// The file has the content now.
    Done,
    /// The store failed; the file has its old content or the new one.
    Failed,
    /// There was not enough memory; the file has its old content or the new one.
    Memory,
}

/// Where files are kept, each under a name. The store of the system uses up the name of a saved file
/// with `.new` behind it: what has that name is gone afterwards.
pub trait Store {
    /// The files, where the store tells them.
    ghost files: { Self → Option Files };

    /// How often the store has failed, up to 2^64 - 1.
    ghost faults: { Self → ℕ };

    /// Loads the file of this name, in place of what the list held, unless it is longer than the
    /// limit. Unless it is done the list is left empty.
    fn load(&mut self, name: &str, limit: usize, into: &mut Vec<u8>) -> Loaded
        ensures content { Loads (files self.old) name.now limit into.new.items result }
        ensures kept { Stays (files self.old) (files self.new) }
        ensures cause { HasCause (faults self.old) (faults self.new) (result ≡ Loaded.Failed) };

    /// Saves the bytes as the file of this name, in place of what it held. All other files stay.
    fn save(&mut self, name: &str, bytes: &[u8]) -> Saved
        ensures content { Saves (files self.old) (files self.new) name.now bytes.now result }
        ensures cause { HasCause (faults self.old) (faults self.new) (result ≡ Saved.Failed) };
}
