//! The lines behind `open`.
ghost use Rattle.std.specs.Prelude.{◌≡◌, ◌++◌, codes, Option, IfOk, string_bytes};
ghost use Rattle.std.specs.List.{flat_map, list_any};
ghost use Rattle.cs_waits.specs.Lines.{line_of, used_line, used_of, first_used, is_told_of, told_word, shard_word, silent_word, objects_text, wait_text, silent_text};

use crate::notes::{Watched, is_listed};
use crate::words::{is_told, user_in};
use cs_base::{Memory, NodeId, print_bytes};
use cs_client::Waiting;
use cs_tx_value::Digest;
use std::alloc::Global;

// The line of a head and of words that each follow on a space, where there are words.
fn line_of(alloc: Global, head: &str, words: &str) -> Result<String, Memory>
    ensures { IfOk result (λ line. string_bytes line ≡ line_of head.now words.now) }
{
    if words.is_empty() {
        return Ok(String::new(alloc));
    }
    Ok(format!(in alloc; "{head}{words}\n")?)
}

// The line of an object and of the session that used it up.
fn used_line(alloc: Global, name: &Digest, session: &Digest) -> Result<String, Memory>
    ensures { IfOk result (λ line. string_bytes line ≡ used_line name.now session.now) }
{
    let name = print_bytes(alloc, name.as_slice())?;
    let session = print_bytes(alloc, session.as_slice())?;
    Ok(format!(in alloc; "used {name} {session}\n")?)
}

// The session that used an object up, beside its name.
fn used_of(f: u16, watched: &Watched) -> Option<(Digest, Digest)>
    ensures { result ≡ used_of f watched.now }
{
    let session = user_in(f, watched.words.as_slice())?;
    let name = watched.name;
    Some((name, session))
}

// The first object that is used up, and the session.
fn first_used(f: u16, watched: &[Watched]) -> Option<(Digest, Digest)>
    ensures { result ≡ first_used f watched.now }
{
    for one in watched {
        if let Some(used) = used_of(f, one) {
            return Some(used);
        }
    }
    None
}

// Whether more than f nodes said something of the object of this name.
fn is_told_of(f: u16, watched: &[Watched], name: &Digest) -> bool
    ensures { result ≡ is_told_of f watched.now name.now }
{
    for one in watched {
        if one.name == *name && is_told(f, one.words.as_slice()) {
            return true;
        }
    }
    false
}

// The name of an object, where more than f nodes said something of it.
fn told_word(alloc: Global, f: u16, watched: &[Watched], name: &Digest) -> Result<String, Memory>
    ensures { IfOk result (λ word. string_bytes word ≡ told_word f watched.now name.now) }
{
    if !is_told_of(f, watched, name) {
        return Ok(String::new(alloc));
    }
    let name = print_bytes(alloc, name.as_slice())?;
    Ok(format!(in alloc; " {name}")?)
}

fn told_words(
    alloc: Global,
    f: u16,
    watched: &[Watched],
    names: &[Digest],
) -> Result<String, Memory>
    ensures { IfOk result (λ text.
        string_bytes text ≡ flat_map (told_word f watched.now) names.now) }
{
    let mut text = String::new(alloc);
    for name in names {
        let word = told_word(alloc, f, watched, name)?;
        text.push_str(&word)?;
    }
    Ok(text)
}

// What is told of a client that waits for objects of its call: the first that is used up, or those
// for which it waits.
fn objects_text(
    alloc: Global,
    f: u16,
    watched: &[Watched],
    names: &[Digest],
) -> Result<String, Memory>
    ensures { IfOk result (λ text. string_bytes text
        ≡ objects_text f watched.now (first_used f watched.now) names.now) }
{
    let Some(used) = first_used(f, watched) else {
        let words = told_words(alloc, f, watched, names)?;
        return line_of(alloc, "waits objects", &words);
    };
    let (name, session) = used;
    used_line(alloc, &name, &session)
}

fn shard_words(alloc: Global, shards: &[u16]) -> Result<String, Memory>
    ensures { IfOk result (λ text. string_bytes text ≡ flat_map shard_word shards.now) }
{
    let mut text = String::new(alloc);
    for shard in shards {
        let word = format!(in alloc; " {shard}")?;
        text.push_str(&word)?;
    }
    Ok(text)
}

/// What a client waits for, by its phase.
pub fn wait_text(
    alloc: Global,
    f: u16,
    watched: &[Watched],
    waits: &Waiting,
) -> Result<String, Memory>
    ensures { IfOk result (λ text. string_bytes text ≡ wait_text f watched.now waits.now) }
{
    match waits {
        Waiting::Objects(names) => objects_text(alloc, f, watched, names.as_slice()),
        Waiting::Dummies(shards) => {
            let words = shard_words(alloc, shards.as_slice())?;
            line_of(alloc, "waits dummies", &words)
        }
        Waiting::Answers => Ok(String::from_str(alloc, "waits answers\n")?),
        Waiting::Nothing => Ok(String::new(alloc)),
    }
}

// The name of a node, where it isn't among those that were heard.
fn silent_word(alloc: Global, heard: &[NodeId], node: NodeId) -> Result<String, Memory>
    ensures { IfOk result (λ word. string_bytes word ≡ silent_word heard.now node) }
{
    if is_listed(node, heard) {
        return Ok(String::new(alloc));
    }
    Ok(format!(in alloc; " {node}")?)
}

fn silent_words(alloc: Global, heard: &[NodeId], asked: &[NodeId]) -> Result<String, Memory>
    ensures { IfOk result (λ text.
        string_bytes text ≡ flat_map (silent_word heard.now) asked.now) }
{
    let mut text = String::new(alloc);
    for node in asked {
        let word = silent_word(alloc, heard, *node)?;
        text.push_str(&word)?;
    }
    Ok(text)
}

/// The nodes that were asked and not heard.
pub fn silent_text(alloc: Global, heard: &[NodeId], asked: &[NodeId]) -> Result<String, Memory>
    ensures { IfOk result (λ text. string_bytes text ≡ silent_text heard.now asked.now) }
{
    let words = silent_words(alloc, heard, asked)?;
    line_of(alloc, "silent", &words)
}
