//! A disk in memory.
ghost use Rattle.std.specs.Prelude.{◌≡◌, ◌≤◌, ◌++◌, ◌∷◌, [], ℕ, List, length, Some, None, IfOk, IfSome, OnOk, OnErr};

use crate::disk::{Attached, Disk, DiskRead, Length, Synced, Wrote};
use crate::state::{Rest, State};
use cs_base::{Failures, Memory};
use cs_io::Text;
use std::alloc::Global;

/// A disk that keeps its file in memory, with each state that the file was in. The listed calls fail
/// and do nothing, and no others, unless memory runs out.
#[derive(Drop)]
pub struct MemDisk {
    alloc: Global,
    name: Option<Text>,
    state: State,
    past: Vec<State>,
    failures: Failures,
}

impl MemDisk {
    ghost use Rattle.cs_base.specs.Failures.{uncalled};
    ghost use Rattle.cs_disk.specs.Disk.{Only};
    ghost use Rattle.cs_disk.specs.Tears.{Leaves};
    ghost use Rattle.cs_disk.specs.InMemory.{disk_failures};

    /// A disk with this content, all of it synced, whose calls of these numbers, counted from 0,
    /// fail.
    pub fn new(alloc: Global, content: &[u8], fails: Vec<u32>) -> Result<Self, Memory>
        ensures content { IfOk result (λ disk.
            ⟦<MemDisk as Disk>⟧.content disk ≡ Some content.now) }
        ensures durable { IfOk result (λ disk.
            Only content.now (⟦<MemDisk as Disk>⟧.may_leave disk)) }
        ensures attached { IfOk result (λ disk. ⟦<MemDisk as Disk>⟧.attached disk ≡ Some None) }
        ensures moment { IfOk result (λ disk. ⟦<MemDisk as Disk>⟧.moment disk ≡ 0) }
        ensures faults { IfOk result (λ disk. ⟦<MemDisk as Disk>⟧.faults disk ≡ 0) }
        ensures failures { IfOk result (λ disk. disk_failures disk ≡ uncalled fails.items) }
    {
        Ok(MemDisk {
            alloc,
            name: None,
            state: State::new(alloc, content)?,
            past: Vec::new(alloc),
            failures: Failures::new(fails),
        })
    }

    /// The content.
    pub fn content(&self) -> &[u8]
        ensures { ⟦<MemDisk as Disk>⟧.content self.now ≡ Some result.now }
    {
        self.state.content.as_slice()
    }

    /// The moment: how many times something was written or synced.
    pub fn moment(&self) -> usize
        ensures { result ≡ ⟦<MemDisk as Disk>⟧.moment self.now }
    {
        self.past.len()
    }

    /// A disk with what a crash at that moment left, all of it synced.
    pub fn crashed(&self, moment: usize, rest: Rest) -> Result<MemDisk, Memory>
        requires { moment ≤ ⟦<MemDisk as Disk>⟧.moment self.now }
        ensures left { IfOk result (λ disk. IfSome (⟦<MemDisk as Disk>⟧.content disk)
            (⟦<MemDisk as Disk>⟧.left_since self.now moment)) }
        ensures durable { IfOk result (λ disk. IfSome (⟦<MemDisk as Disk>⟧.content disk)
            (λ file. Only file (⟦<MemDisk as Disk>⟧.may_leave disk))) }
    {
        let left = self.state_at(moment).left(self.alloc, rest)?;
        MemDisk::new(self.alloc, left.as_slice(), Vec::new(self.alloc))
    }

    // The state at that moment.
    fn state_at(&self, moment: usize) -> &State
        requires { moment ≤ ⟦<MemDisk as Disk>⟧.moment self.now }
        ensures { (file : List ℕ) → Leaves result.now file
            → ⟦<MemDisk as Disk>⟧.left_since self.now moment file }
    {
        match self.past.get(moment) {
            Some(state) => state,
            None => &self.state,
        }
    }

    // Goes on to another state.
    fn go_on(&mut self, next: State) -> Result<(), Memory>
        ensures state { OnOk result (self.new.state ≡ next) }
        ensures past { OnOk result (self.new.past.items ≡ self.old.past.items ++ self.old.state ∷ []) }
        ensures err { OnErr result (self.new.state ≡ self.old.state) }
        ensures past_err { OnErr result (self.new.past.items ≡ self.old.past.items) }
        ensures name { self.new.name ≡ self.old.name }
        ensures failures { self.new.failures ≡ self.old.failures }
    {
        self.past.push(self.state.again(self.alloc)?)?;
        self.state = next;
        Ok(())
    }

    // Writes the bytes at the place.
    fn put(&mut self, at: usize, bytes: &[u8]) -> Result<(), Memory>
        requires { at ≤ length self.old.state.content }
        ensures content { OnOk result
            (self.new.state.content ≡ over self.old.state.content at bytes.now) }
        ensures synced { OnOk result (self.new.state.synced ≡ self.old.state.synced) }
        ensures unsynced { OnOk result (self.new.state.unsynced
            ≡ self.old.state.unsynced ++ (at, length bytes.now) ∷ []) }
        ensures past { OnOk result (self.new.past.items ≡ self.old.past.items ++ self.old.state ∷ []) }
        ensures err { OnErr result (self.new.state ≡ self.old.state) }
        ensures past_err { OnErr result (self.new.past.items ≡ self.old.past.items) }
        ensures name { self.new.name ≡ self.old.name }
        ensures failures { self.new.failures ≡ self.old.failures }
    {
        let next = self.state.written(self.alloc, at, bytes)?;
        self.go_on(next)
    }

    // Syncs what was written.
    fn keep(&mut self) -> Result<(), Memory>
        ensures content { OnOk result (self.new.state.content ≡ self.old.state.content) }
        ensures synced { OnOk result (self.new.state.synced ≡ self.old.state.content) }
        ensures unsynced { OnOk result (self.new.state.unsynced ≡ []) }
        ensures past { OnOk result (self.new.past.items ≡ self.old.past.items ++ self.old.state ∷ []) }
        ensures err { OnErr result (self.new.state ≡ self.old.state) }
        ensures past_err { OnErr result (self.new.past.items ≡ self.old.past.items) }
        ensures name { self.new.name ≡ self.old.name }
        ensures failures { self.new.failures ≡ self.old.failures }
    {
        let next = State::new(self.alloc, self.state.content.as_slice())?;
        self.go_on(next)
    }
}

ghost use Rattle.cs_disk.specs.Disk.{over};

impl Disk for MemDisk {
    ghost use Rattle.std.proofs.Common.{inl};
    ghost use Rattle.cs_disk.specs.laws.Past.{only_this, content_there};
    ghost use Rattle.cs_disk.specs.InMemory.{disk_attached, disk_content, disk_may_leave, disk_moment, disk_left_since, disk_faults};

    ghost attached = { disk_attached };

    ghost content = { disk_content };

    ghost may_leave = { disk_may_leave };

    ghost moment = { disk_moment };

    ghost left_since = { disk_left_since };

    ghost faults = { disk_faults };

    ghost counts_now = { λ d t c le now. inl now };

    ghost only_now = { λ d c left. only_this d.past.items d.state c left };

    ghost stays_there = { λ d c is. content_there d.state c is };

    fn attach(&mut self, name: &str) -> Attached {
        self.name = None;
        if self.failures.is_due() {
            return Attached::Failed;
        }
        match String::from_str(self.alloc, name) {
            Ok(kept) => {
                self.name = Some(Text::from_string(kept));
                Attached::Done
            }
            Err(_) => Attached::Memory,
        }
    }

    fn length(&mut self) -> Length {
        if self.failures.is_due() {
            return Length::Failed;
        }
        Length::Is(self.state.content.len() as u64)
    }

    fn read_at(&mut self, at: u64, buf: &mut [u8]) -> DiskRead {
        if self.failures.is_due() {
            return DiskRead::Failed;
        }
        let (_, rest) = self.state.content.as_slice().split_at(at as usize);
        let (bytes, _) = rest.split_at(buf.len());
        buf.copy_from_slice(bytes);
        DiskRead::Done
    }

    fn write_at(&mut self, at: u64, bytes: &[u8]) -> Wrote {
        if self.failures.is_due() {
            return Wrote::Failed;
        }
        match self.put(at as usize, bytes) {
            Ok(()) => Wrote::Done,
            Err(Memory) => Wrote::Memory,
        }
    }

    fn sync(&mut self) -> Synced {
        if self.failures.is_due() {
            return Synced::Failed;
        }
        match self.keep() {
            Ok(()) => Synced::Done,
            Err(Memory) => {
                self.failures.faults = self.failures.faults.saturating_add(1);
                Synced::Failed
            }
        }
    }
}
