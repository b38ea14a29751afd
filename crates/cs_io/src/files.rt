//! Files in memory, each with its name.
ghost use Rattle.std.specs.Prelude.{◌≡◌, OnOk, OnErr, option_copied};
ghost use Rattle.std.specs.List.{position};
ghost use Rattle.cs_io.specs.Store.{Replaces};
ghost use Rattle.cs_io.specs.Files.{content_in, is_file_of};

use cs_base::Memory;
use std::alloc::Global;

/// What stands in the first file of this name.
pub fn content_of<'a>(files: &'a [(String, Vec<u8>)], name: &str) -> Option<&'a [u8]>
    ensures { option_copied result ≡ content_in files.now name.now }
{
    for file in files {
        if file.0.as_str() == name {
            return Some(file.1.as_slice());
        }
    }
    None
}

// The place of the first file of this name.
fn place_of(files: &[(String, Vec<u8>)], name: &str) -> Option<usize>
    ensures { result ≡ position (is_file_of name.now) files.now }
{
    files.iter().position(|file| file.0.as_str() == name)
}

/// Puts the bytes into the file of this name, or makes one. Where memory runs out all files stay.
pub fn put(
    alloc: Global,
    files: &mut Vec<(String, Vec<u8>)>,
    name: &str,
    bytes: &[u8],
) -> Result<(), Memory>
    ensures ok { OnOk result
        (Replaces name.now bytes.now (content_in files.old.items) (content_in files.new.items)) }
    ensures err { OnErr result (files.new.items ≡ files.old.items) }
{
    let content = Vec::from_slice(alloc, bytes)?;
    match place_of(files, name) {
        Some(place) => {
            let file = &mut files[place];
            file.1 = content;
        }
        None => files.push((String::from_str(alloc, name)?, content))?,
    }
    Ok(())
}
