//! What child programs are started by, by their words and their statuses, and by how often it
//! failed.
ghost use Rattle.std.specs.Prelude.{◌≡◌, ◌<◌, ◌≤◌, [], ◌∷◌, ℕ, false, map, string_bytes};
ghost use Rattle.cs_base.specs.Outside.{HasCause};
ghost use Rattle.cs_io.specs.Told.{Stays};
ghost use Rattle.cs_io.specs.Spawner.{SpawnerStarts, Waits, EndsThese, children_after, unstarted_after};
ghost use Rattle.cs_io.specs.Outside.{SpawnerTold};

/// What came of starting a child.
#[derive(Clone, Copy, Debug, PartialEq, Eq)]
pub enum Started {
    /// The child runs, and has this number.
    Started(u64),
    /// The spawner failed, and no child was started.
    Failed,
    /// No child was started, for want of memory.
    Memory,
}

/// What came of waiting for a child.
#[derive(Clone, Copy, Debug, PartialEq, Eq)]
pub enum Waited {
    /// The child has ended with this status.
    Ended(u8),
    /// The spawner failed; nothing is known of the child.
    Failed,
}

/// What came of telling a child to end.
#[derive(Clone, Copy, Debug, PartialEq, Eq)]
pub enum Stopped {
    /// The child ends, or has ended before.
    Done,
    /// The spawner failed; the child may run on.
    Failed,
}

/// What child programs are started by, waited for, and told to end. A child's number is that of the
/// children that were started before it.
pub trait Spawner {
    /// What the spawner has told so far: how many children were started and which of them were told
    /// to end; how many starts gave no child; and the words of each and the status with which it
    /// ends, where it tells that.
    ghost told: { Self → SpawnerTold };

    /// How often the spawner has failed, up to 2^64 - 1.
    ghost faults: { Self → ℕ };

    /// Starts a child with these words.
    fn start(&mut self, words: &[String]) -> Started
        ensures words { SpawnerStarts
            (told self.old).started (told self.new).started (map string_bytes words.now) result }
        ensures children { (told self.new).children ≡ children_after (told self.old).children result }
        ensures unstarted { (told self.new).unstarted
            ≡ unstarted_after (told self.old).unstarted result }
        ensures number { (n : ℕ) → result ≡ Started.Started n → n ≡ (told self.old).children }
        ensures statuses { Stays (told self.old).statuses (told self.new).statuses }
        ensures ended { (told self.new).ended ≡ (told self.old).ended }
        ensures cause { HasCause (faults self.old) (faults self.new) (result ≡ Started.Failed) };

    /// Waits until the child of this number has ended.
    fn wait(&mut self, number: u64) -> Waited
        requires { number < (told self.old).children }
        ensures status { Waits (told self.old).statuses number result }
        ensures started { Stays (told self.old).started (told self.new).started }
        ensures children { (told self.new).children ≡ (told self.old).children }
        ensures unstarted { (told self.new).unstarted ≡ (told self.old).unstarted }
        ensures statuses { Stays (told self.old).statuses (told self.new).statuses }
        ensures ended { (told self.new).ended ≡ (told self.old).ended }
        ensures cause { HasCause (faults self.old) (faults self.new) (result ≡ Waited.Failed) };

    /// Tells the child of this number to end, which wasn't told so before, and doesn't wait for it.
    fn end(&mut self, number: u64) -> Stopped
        requires there { number < (told self.old).children }
        requires once { (told self.old).ended number ≡ false }
        ensures ended { EndsThese (number ∷ []) (told self.old).ended (told self.new).ended }
        ensures started { Stays (told self.old).started (told self.new).started }
        ensures children { (told self.new).children ≡ (told self.old).children }
        ensures unstarted { (told self.new).unstarted ≡ (told self.old).unstarted }
        ensures statuses { Stays (told self.old).statuses (told self.new).statuses }
        ensures cause { HasCause (faults self.old) (faults self.new) (result ≡ Stopped.Failed) };

    /// No child is told to end before it is started.
    ghost spared: { (s : Self) (n : ℕ) → (told s).children ≤ n → (told s).ended n ≡ false };
}
