//! Child programs of this same program.
ghost use Rattle.std.specs.Prelude.{◌≡◌, None, length, vec_len};
ghost use Rattle.cs_io.specs.Spawner.{flag_of};
ghost use Rattle.cs_io.specs.laws.Flags.{spared_past};

use cs_io::{Spawner, Started, Stopped, Waited};
use std::alloc::Global;
use std::io::{self, ErrorKind};
use std::process::{Child, Command, Processes, Stdio};

/// This same program, wherever it lies.
const PROGRAM: &str = "/proc/self/exe";

/// Children of this same program, whose output is thrown away.
#[derive(Drop)]
pub struct Children<'a, R: Processes> {
    system: &'a R,
    alloc: Global,
    children: Vec<Child<R::Started>>,
    ended: Vec<bool>,
    unstarted: u64,
    faults: u64,
    ghost flagged: { length ended.items ≡ vec_len children },
}

impl<'a, R: Processes> Children<'a, R> {
    pub fn new(system: &'a R, alloc: Global) -> Self {
        Children {
            system,
            alloc,
            children: Vec::new(alloc),
            ended: Vec::new(alloc),
            unstarted: 0,
            faults: 0,
        }
    }
}

fn spawn<R: Processes>(
    system: &R,
    alloc: Global,
    words: &[String],
) -> io::Result<Child<R::Started>> {
    let mut command = Command::new(alloc, PROGRAM)?;
    for word in words {
        command.arg(word.as_str())?;
    }
    command.stdin(Stdio::null());
    command.stdout(Stdio::null());
    command.stderr(Stdio::null());
    command.spawn(system)
}

impl<R: Processes> Spawner for Children<'_, R> {
    ghost told = { λ s. record {
      started = None;
      children = vec_len s.children;
      unstarted = s.unstarted;
      statuses = None;
      ended = flag_of s.ended.items;
    } };

    ghost faults = { λ s. s.faults };

    ghost spared = { λ s n past. spared_past s.ended.items (vec_len s.children) n s.flagged past };

    fn start(&mut self, words: &[String]) -> Started {
        let number = self.children.len() as u64;
        // Room first, so that no child runs that isn't kept.
        if self.children.reserve(1).is_err() || self.ended.reserve(1).is_err() {
            self.unstarted = self.unstarted.saturating_add(1);
            return Started::Memory;
        }
        match spawn(self.system, self.alloc, words) {
            Ok(child) => {
                self.children.push(child).unwrap();
                self.ended.push(false).unwrap();
                Started::Started(number)
            }
            Err(error) if error.kind() == ErrorKind::OutOfMemory => {
                self.unstarted = self.unstarted.saturating_add(1);
                Started::Memory
            }
            Err(_) => {
                self.unstarted = self.unstarted.saturating_add(1);
                self.faults = self.faults.saturating_add(1);
                Started::Failed
            }
        }
    }

    // A child that a signal ended has no status.
    fn wait(&mut self, number: u64) -> Waited {
        let status = match self.children[number as usize].wait() {
            Ok(status) => status.code(),
            Err(_) => None,
        };
        match status.map(u8::try_from) {
            Some(Ok(status)) => Waited::Ended(status),
            _ => {
                self.faults = self.faults.saturating_add(1);
                Waited::Failed
            }
        }
    }

    // What a child was doing is lost.
    fn end(&mut self, number: u64) -> Stopped {
        self.ended[number as usize] = true;
        match self.children[number as usize].kill() {
            Ok(()) => Stopped::Done,
            Err(_) => {
                self.faults = self.faults.saturating_add(1);
                Stopped::Failed
            }
        }
    }
}
