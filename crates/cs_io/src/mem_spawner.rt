//! A spawner in memory.
ghost use Rattle.std.specs.Prelude.{◌≡◌, ◌<◌, ◌++◌, ◌∷◌, [], ℕ, false, length, map, string_bytes, slice_index, Some, IfOk, OnOk, OnErr};
ghost use Rattle.cs_base.specs.Outside.{HasCause};
ghost use Rattle.cs_io.specs.Told.{Stays};
ghost use Rattle.cs_io.specs.Spawner.{SpawnerStarts, Waits, EndsThese, children_after, unstarted_after, flag_of};

use crate::spawner::{Spawner, Started, Stopped, Waited};
use crate::text::Text;
use cs_base::{Failures, Memory, Sequence};
use std::alloc::Global;

/// A spawner that keeps the words of its children, and runs none. The listed calls fail, and no
/// others, unless memory runs out.
#[derive(Drop)]
pub struct MemSpawner {
    alloc: Global,
    statuses: Vec<u8>,
    started: Sequence<Sequence<Text>>,
    ended: Vec<bool>,
    unstarted: u64,
    failures: Failures,
    ghost flagged: { length ended.items ≡ length started },
}

impl MemSpawner {
    ghost use Rattle.cs_base.specs.Failures.{uncalled};
    ghost use Rattle.cs_io.specs.InMemory.{spawner_failures};

    /// A spawner without children, whose calls of these numbers, counted from 0, fail. Its child
    /// of number k ends with the status at place k, or with 0 where there is none.
    pub fn new(alloc: Global, statuses: Vec<u8>, fails: Vec<u32>) -> Self
        ensures started { (⟦<MemSpawner as Spawner>⟧.told result).started ≡ Some [] }
        ensures children { (⟦<MemSpawner as Spawner>⟧.told result).children ≡ 0 }
        ensures unstarted { (⟦<MemSpawner as Spawner>⟧.told result).unstarted ≡ 0 }
        ensures statuses { (⟦<MemSpawner as Spawner>⟧.told result).statuses
            ≡ Some (slice_index statuses.items) }
        ensures ended { (⟦<MemSpawner as Spawner>⟧.told result).ended ≡ (λ _. false) }
        ensures faults { ⟦<MemSpawner as Spawner>⟧.faults result ≡ 0 }
        ensures failures { spawner_failures result ≡ uncalled fails.items }
    {
        MemSpawner {
            alloc,
            statuses,
            started: Sequence::new(alloc),
            ended: Vec::new(alloc),
            unstarted: 0,
            failures: Failures::new(fails),
        }
    }

    /// The words of each child, in the order of their numbers.
    pub fn started(&self) -> &[Sequence<Text>]
        ensures { (⟦<MemSpawner as Spawner>⟧.told self.now).started ≡ Some result.now }
    {
        self.started.as_slice()
    }

    /// Whether the child of this number was told to end.
    pub fn was_ended(&self, number: u64) -> bool
        ensures { result ≡ (⟦<MemSpawner as Spawner>⟧.told self.now).ended number }
    {
        let flag = self.ended.get(number as usize).copied();
        flag.unwrap_or(false)
    }

    // Keeps the words of a child, which isn't told to end.
    fn keep(&mut self, words: &[String]) -> Result<(), Memory>
        ensures ok { OnOk result
            (self.new.started ≡ self.old.started ++ map string_bytes words.now ∷ []) }
        ensures err { OnErr result (self.new.started ≡ self.old.started) }
        ensures ended { flag_of self.new.ended.items ≡ flag_of self.old.ended.items }
        ensures statuses { self.new.statuses ≡ self.old.statuses }
        ensures unstarted { self.new.unstarted ≡ self.old.unstarted }
        ensures failures { self.new.failures ≡ self.old.failures }
    {
        let kept = copy_words(self.alloc, words)?;
        // Room for the flag first, so that it is never missing.
        self.ended.reserve(1)?;
        self.started.push(kept)?;
        self.ended.push(false)?;
        Ok(())
    }
}

fn copy_words(alloc: Global, words: &[String]) -> Result<Sequence<Text>, Memory>
    ensures { IfOk result (λ copied. copied ≡ map string_bytes words.now) }
{
    let mut copied = Sequence::new(alloc);
    for word in words {
        copied.push(Text::from_string(String::from_str(alloc, word.as_str())?))?;
    }
    Ok(copied)
}

impl Spawner for MemSpawner {
    ghost use Rattle.cs_base.specs.Failures.{CountsCall};
    ghost use Rattle.cs_io.specs.laws.Flags.{spared_past};
    ghost use Rattle.cs_io.specs.InMemory.{spawner_told, spawner_failures, spawner_faults};

    ghost told = { spawner_told };

    ghost faults = { spawner_faults };

    ghost spared = { λ s n past. spared_past s.ended.items (length s.started) n s.flagged past };

    fn start(&mut self, words: &[String]) -> Started
        ensures words { SpawnerStarts (spawner_told self.old).started (spawner_told self.new).started
            (map string_bytes words.now) result }
        ensures children { (spawner_told self.new).children
            ≡ children_after (spawner_told self.old).children result }
        ensures unstarted { (spawner_told self.new).unstarted
            ≡ unstarted_after (spawner_told self.old).unstarted result }
        ensures number { (n : ℕ) → result ≡ Started.Started n → n ≡ (spawner_told self.old).children }
        ensures statuses { Stays (spawner_told self.old).statuses (spawner_told self.new).statuses }
        ensures ended { (spawner_told self.new).ended ≡ (spawner_told self.old).ended }
        ensures cause { HasCause (spawner_faults self.old) (spawner_faults self.new)
            (result ≡ Started.Failed) }

        // Exactly the listed calls fail.
        ensures counted { CountsCall (spawner_failures self.old) (spawner_failures self.new)
            (result ≡ Started.Failed) }
    {
        if self.failures.is_due() {
            self.unstarted = self.unstarted.saturating_add(1);
            return Started::Failed;
        }
        let number = self.started.len();
        match self.keep(words) {
            Ok(()) => Started::Started(number as u64),
            Err(Memory) => {
                self.unstarted = self.unstarted.saturating_add(1);
                Started::Memory
            }
        }
    }

    fn wait(&mut self, number: u64) -> Waited
        requires { number < (spawner_told self.old).children }
        ensures status { Waits (spawner_told self.old).statuses number result }
        ensures started { Stays (spawner_told self.old).started (spawner_told self.new).started }
        ensures children { (spawner_told self.new).children ≡ (spawner_told self.old).children }
        ensures unstarted { (spawner_told self.new).unstarted ≡ (spawner_told self.old).unstarted }
        ensures statuses { Stays (spawner_told self.old).statuses (spawner_told self.new).statuses }
        ensures ended { (spawner_told self.new).ended ≡ (spawner_told self.old).ended }
        ensures cause { HasCause (spawner_faults self.old) (spawner_faults self.new)
            (result ≡ Waited.Failed) }

        // Exactly the listed calls fail.
        ensures counted { CountsCall (spawner_failures self.old) (spawner_failures self.new)
            (result ≡ Waited.Failed) }
    {
        if self.failures.is_due() {
            return Waited::Failed;
        }
        let status = self.statuses.get(number as usize).copied();
        Waited::Ended(status.unwrap_or(0))
    }

    fn end(&mut self, number: u64) -> Stopped
        requires { number < (spawner_told self.old).children }
        ensures ended { EndsThese
            (number ∷ []) (spawner_told self.old).ended (spawner_told self.new).ended }
        ensures started { Stays (spawner_told self.old).started (spawner_told self.new).started }
        ensures children { (spawner_told self.new).children ≡ (spawner_told self.old).children }
        ensures unstarted { (spawner_told self.new).unstarted ≡ (spawner_told self.old).unstarted }
        ensures statuses { Stays (spawner_told self.old).statuses (spawner_told self.new).statuses }
        ensures cause { HasCause (spawner_faults self.old) (spawner_faults self.new)
            (result ≡ Stopped.Failed) }

        // Exactly the listed calls fail.
        ensures counted { CountsCall (spawner_failures self.old) (spawner_failures self.new)
            (result ≡ Stopped.Failed) }
    {
        self.ended[number as usize] = true;
        if self.failures.is_due() {
            return Stopped::Failed;
        }
        Stopped::Done
    }
}
