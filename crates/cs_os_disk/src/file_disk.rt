//! A file of the system.
ghost use Rattle.std.specs.Prelude.{◌≡◌, ◌≤◌, ◌+◌, ◌-◌, ◌^◌, min, None};

use cs_disk::{Attached, Disk, DiskRead, Length, Synced, Wrote};
use std::fs::{File, OpenOptions};
use std::io::{self, ErrorKind};
use std::os::unix::fs::{FileExt, OpenOptionsExt};
use std::path::Path;
use std::rt::Files;

/// A file of the system, by its path, which its owner alone may read and one process alone may have.
/// Nothing of it is kept in the process.
#[derive(Drop)]
pub struct FileDisk<'a, R: Files> {
    files: &'a R,
    file: Option<File>,
    faults: u64,
}

impl<'a, R: Files<File = File>> FileDisk<'a, R> {
    /// A disk without a file.
    pub fn new(files: &'a R) -> Self {
        FileDisk {
            files,
            file: None,
            faults: 0,
        }
    }

    fn count_fault(&mut self)
        ensures faults { self.new.faults ≡ min (self.old.faults + 1) (2 ^ 64 - 1) }
        ensures later { self.old.faults ≤ self.new.faults }
    {
        self.faults = self.faults.saturating_add(1);
    }
}

// The file of this name, which is made where there is none, and locked.
fn open_locked<R: Files<File = File>>(files: &R, name: &str) -> io::Result<File> {
    let mut options = OpenOptions::new();
    options.read(true).write(true).create(true).mode(0o600);
    let file = options.open(files, name)?;
    if file.try_lock().is_err() {
        return Err(io::Error::from(ErrorKind::WouldBlock));
    }
    sync_folder(files, name)?;
    Ok(file)
}

// A new file is kept once the folder that has its name is synced.
fn sync_folder<R: Files<File = File>>(files: &R, name: &str) -> io::Result<()> {
    let folder = match Path::new(name).parent() {
        Some(folder) if !folder.as_str().is_empty() => folder,
        _ => Path::new("."),
    };
    File::open(files, folder)?.sync_all()
}

// The file that is attached.
fn attached(file: &Option<File>) -> io::Result<&File> {
    match file {
        Some(file) => Ok(file),
        None => Err(io::Error::from(ErrorKind::NotFound)),
    }
}

fn length_of(file: &Option<File>) -> io::Result<u64> {
    Ok(attached(file)?.metadata()?.len())
}

fn read_file(file: &Option<File>, at: u64, buf: &mut [u8]) -> io::Result<()> {
    attached(file)?.read_exact_at(buf, at)
}

fn write_file(file: &Option<File>, at: u64, bytes: &[u8]) -> io::Result<()> {
    attached(file)?.write_all_at(bytes, at)
}

// The data and the length that is needed to read it.
fn sync_file(file: &Option<File>) -> io::Result<()> {
    attached(file)?.sync_data()
}

impl<R: Files<File = File>> Disk for FileDisk<'_, R> {
    ghost attached = { λ _. None };

    ghost content = { λ _. None };

    // Nothing is told, so a crash may leave anything.
    ghost may_leave = { λ _ _. Unit {0} };

    ghost moment = { λ _. 0 };

    ghost left_since = { λ _ _ _. Unit {0} };

    ghost faults = { λ d. d.faults };

    ghost counts_now = { λ d t c le now. tt };

    ghost only_now = { λ d c left. tt };

    ghost stays_there = { λ d c is. tt };

    fn attach(&mut self, name: &str) -> Attached {
        self.file = None;
        match open_locked(self.files, name) {
            Ok(file) => {
                self.file = Some(file);
                Attached::Done
            }
            Err(error) if error.kind() == ErrorKind::OutOfMemory => Attached::Memory,
            Err(_) => {
                self.count_fault();
                Attached::Failed
            }
        }
    }

    fn length(&mut self) -> Length {
        match length_of(&self.file) {
            Ok(length) => Length::Is(length),
            Err(_) => {
                self.count_fault();
                Length::Failed
            }
        }
    }

    fn read_at(&mut self, at: u64, buf: &mut [u8]) -> DiskRead {
        match read_file(&self.file, at, buf) {
            Ok(()) => DiskRead::Done,
            Err(_) => {
                self.count_fault();
                DiskRead::Failed
            }
        }
    }

    fn write_at(&mut self, at: u64, bytes: &[u8]) -> Wrote {
        match write_file(&self.file, at, bytes) {
            Ok(()) => Wrote::Done,
            Err(_) => {
                self.count_fault();
                Wrote::Failed
            }
        }
    }

    fn sync(&mut self) -> Synced {
        match sync_file(&self.file) {
            Ok(()) => Synced::Done,
            Err(_) => {
                self.count_fault();
                Synced::Failed
            }
        }
    }
}
