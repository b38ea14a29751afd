//! Files by name.
ghost use Rattle.std.specs.Prelude.{◌≡◌, None};

use cs_io::{Loaded, Saved, Store};
use std::alloc::Global;
use std::fs::{self, File, OpenFile, OpenOptions};
use std::io::{self, ErrorKind, Read, Write};
use std::os::unix::fs::OpenOptionsExt;
use std::path::Path;
use std::rt::Files;

/// The files of the system, by their paths. A saved file is one that its owner alone may read.
#[derive(Drop)]
pub struct FileStore<'a, R: Files> {
    files: &'a R,
    alloc: Global,
    faults: u64,
}

impl<'a, R: Files> FileStore<'a, R> {
    pub fn new(files: &'a R, alloc: Global) -> Self {
        FileStore {
            files,
            alloc,
            faults: 0,
        }
    }
}

// The file's bytes, but no more than so many.
fn read_file<R: Files>(files: &R, name: &str, most: u64, into: &mut Vec<u8>) -> io::Result<usize> {
    let file = File::open(files, name)?;
    file.take(most).read_to_end(into)
}

// Whatever has the name is removed, be it a file, a link or a pipe.
fn remove_left<R: Files>(files: &R, name: &str) -> io::Result<()> {
    match fs::remove_file(files, name) {
        Err(error) if error.kind() != ErrorKind::NotFound => Err(error),
        _ => Ok(()),
    }
}

// A new file that its owner alone may read.
fn create_private<R: Files>(files: &R, name: &str) -> io::Result<R::File> {
    let mut options = OpenOptions::new();
    options.write(true).create_new(true).mode(0o600);
    options.open(files, name)
}

// A file's new name is kept once the folder that has it is synced.
fn sync_folder<R: Files>(files: &R, name: &str) -> io::Result<()> {
    let folder = match Path::new(name).parent() {
        Some(folder) if !folder.as_str().is_empty() => folder,
        _ => Path::new("."),
    };
    File::open(files, folder)?.sync_all()
}

fn write_beside<R: Files>(files: &R, beside: &str, name: &str, bytes: &[u8]) -> io::Result<()> {
    let mut file = create_private(files, beside)?;
    file.write_all(bytes)?;
    file.sync_all()?;
    fs::rename(files, beside, name)
}

// The bytes are written beside the file first, so that a fault leaves its old content or the new.
fn write_file<R: Files>(files: &R, alloc: Global, name: &str, bytes: &[u8]) -> io::Result<()> {
    let beside = format!(in alloc; "{name}.new")?;
    remove_left(files, beside.as_str())?;
    if let Err(error) = write_beside(files, beside.as_str(), name, bytes) {
        let _ = fs::remove_file(files, beside.as_str());
        return Err(error);
    }
    sync_folder(files, name)
}

impl<R: Files> Store for FileStore<'_, R> {
    ghost files = { λ _. None };

    ghost faults = { λ s. s.faults };

    fn load(&mut self, name: &str, limit: usize, into: &mut Vec<u8>) -> Loaded {
        into.clear();
        let most = (limit as u64).saturating_add(1);
        let read = read_file(self.files, name, most, into);
        if read.is_ok() && into.len() <= limit {
            return Loaded::Done;
        }
        into.clear();
        match read {
            Ok(_) => Loaded::TooLong,
            Err(error) if error.kind() == ErrorKind::NotFound => Loaded::Absent,
            Err(error) if error.kind() == ErrorKind::OutOfMemory => Loaded::Memory,
            Err(_) => {
                self.faults = self.faults.saturating_add(1);
                Loaded::Failed
            }
        }
    }

    fn save(&mut self, name: &str, bytes: &[u8]) -> Saved {
        match write_file(self.files, self.alloc, name, bytes) {
            Ok(()) => Saved::Done,
            Err(error) if error.kind() == ErrorKind::OutOfMemory => Saved::Memory,
            Err(_) => {
                self.faults = self.faults.saturating_add(1);
                Saved::Failed
            }
        }
    }
}
