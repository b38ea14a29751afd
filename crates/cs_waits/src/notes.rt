//! What a client notes of its inputs and of what it says.
ghost use Rattle.std.specs.Prelude.{◌≡◌, ◌++◌, map, replicate, OnOk, IfOk};
ghost use Rattle.cs_waits.specs.declared.words.Word.TheVariants.{Silent};
ghost use Rattle.cs_waits.specs.Notes.{unwatched, with_word, is_listed, with_node, with_asked};

use crate::lines::{silent_text, wait_text};
use crate::words::{Word, put_word, word_in};
use cs_base::{Config, Key, Memory, NodeId, Sequence, shard_of};
use cs_client::{Known, Out, Waiting, known_line};
use cs_config::CallFile;
use cs_tx_value::Digest;
use cs_wire::{Keys, Message, read};
use std::alloc::Global;
use std::marker::Model;

/// An object of the call, with the last word of each node of its shard.
#[derive(Drop)]
pub struct Watched {
    pub name: Digest,
    pub words: Sequence<Word>,
}

/// What a client notes.
#[derive(Drop)]
pub struct Notes {
    /// The objects of the call, those to be used up first.
    watched: Vec<Watched>,
    /// The nodes that were asked for something, in the order in which they were first.
    asked: Sequence<NodeId>,
    /// Those of whom something came that opened, in the same order.
    heard: Sequence<NodeId>,
}

impl Model for Notes {
    ghost use Rattle.std.specs.Coded.{codes};
    ghost use Rattle.cs_waits.specs.Notes.{Noted};

    ghost Value = { Noted };

    ghost coded = { Prim.hlevel (codes) };

    ghost view = { λ n. record {
      watched = n.watched.items;
      asked = n.asked;
      heard = n.heard;
    } };
}

// No word of so many nodes.
fn no_words(alloc: Global, members: u16) -> Result<Sequence<Word>, Memory>
    ensures { IfOk result (λ words. words ≡ replicate members Silent) }
{
    let mut words = Sequence::new(alloc);
    for _member in 0..members {
        words.push(Word::Silent)?;
    }
    Ok(words)
}

// Adds objects of which no node has said anything.
fn watch(
    alloc: Global,
    names: &[Digest],
    members: u16,
    watched: &mut Vec<Watched>,
) -> Result<(), Memory>
    ensures { OnOk result
        (watched.new.items ≡ watched.old.items ++ map (unwatched members) names.now) }
{
    for name in names {
        watched.push(Watched {
            name: *name,
            words: no_words(alloc, members)?,
        })?;
    }
    Ok(())
}

// Notes what a node says of an object, where it is one of the object's shard.
fn hear_word(alloc: Global, config: &Config, watched: &mut Watched, from: NodeId, message: &Message)
    ensures { watched.new ≡ with_word config.now from message.now watched.old }
{
    let Some(word) = word_in(&watched.name, message) else {
        return;
    };
    if from.shard == shard_of(config, &Key::Object(watched.name)) {
        put_word(alloc, &mut watched.words, usize::from(from.index), word);
    }
}

// Notes what a node says of each of these.
fn hear_words(
    alloc: Global,
    config: &Config,
    watched: &mut [Watched],
    from: NodeId,
    message: &Message,
)
    ensures { watched.new ≡ map (with_word config.now from message.now) watched.old }
{
    for i in 0..watched.len() {
        hear_word(alloc, config, &mut watched[i], from, message);
    }
}

/// Whether a node stands among these.
pub fn is_listed(node: NodeId, nodes: &[NodeId]) -> bool
    ensures { result ≡ is_listed node nodes.now }
{
    nodes.iter().any(|other| other.shard == node.shard && other.index == node.index)
}

// Adds a node, where it doesn't stand there.
fn add_node(node: NodeId, nodes: &mut Sequence<NodeId>) -> Result<(), Memory>
    ensures { OnOk result (nodes.new ≡ with_node node nodes.old) }
{
    if !is_listed(node, nodes.as_slice()) {
        nodes.push(node)?;
    }
    Ok(())
}

// Adds those for whom these are.
fn add_asked(outs: &[Out], nodes: &mut Sequence<NodeId>) -> Result<(), Memory>
    ensures { OnOk result (nodes.new ≡ with_asked outs.now nodes.old) }
{
    for out in outs {
        add_node(out.to, nodes)?;
    }
    Ok(())
}

impl Notes {
    ghost use Rattle.std.specs.Prelude.{◌≡◌, Some, OnOk, IfOk, string_bytes};
    ghost use Rattle.cs_io.specs.declared.link.MemInput.TheVariants as came;
    ghost use Rattle.cs_client.specs.Inputs.{heard};
    ghost use Rattle.cs_waits.specs.Notes.{nothing_noted, after_said, after_asking};
    ghost use Rattle.cs_waits.specs.Lines.{open_text};

    /// What is noted before the first input: nothing.
    pub fn new(alloc: Global, config: &Config, call: &CallFile) -> Result<Notes, Memory>
        ensures { IfOk result (λ notes. notes ≡ nothing_noted config.now call.now) }
    {
        let members = 3 * config.f + 1;
        let mut watched = Vec::new(alloc);
        watch(alloc, call.inputs.as_slice(), members, &mut watched)?;
        watch(alloc, call.reads.as_slice(), members, &mut watched)?;
        Ok(Notes {
            watched,
            asked: Sequence::new(alloc),
            heard: Sequence::new(alloc),
        })
    }

    // Notes what a node says.
    fn take(
        &mut self,
        alloc: Global,
        config: &Config,
        from: NodeId,
        message: &Message,
    ) -> Result<(), Memory>
        ensures { OnOk result
            (self.new ≡ after_said config.now (Some (from, message.now)) self.old) }
    {
        hear_words(alloc, config, &mut self.watched, from, message);
        add_node(from, &mut self.heard)
    }

    /// Notes a datagram. Of one that doesn't open nothing is noted.
    pub fn hear(
        &mut self,
        alloc: Global,
        config: &Config,
        keys: &Keys,
        bytes: &[u8],
    ) -> Result<(), Memory>
        ensures { let said = heard keys.now (came.Datagram bytes.now) in
            OnOk result (self.new ≡ after_said config.now said self.old) }
    {
        match read(alloc, keys, bytes)? {
            Ok((from, message)) => self.take(alloc, config, from, &message),
            Err(_) => Ok(()),
        }
    }

    /// Notes whom the client asks.
    pub fn ask(&mut self, outs: &[Out]) -> Result<(), Memory>
        ensures { OnOk result (self.new ≡ after_asking outs.now self.old) }
    {
        add_asked(outs, &mut self.asked)
    }

    /// The line `open`, and behind it what the client waits for, and who is silent.
    pub fn open_text(&self, alloc: Global, f: u16, waits: &Waiting) -> Result<String, Memory>
        ensures { IfOk result (λ text. string_bytes text ≡ open_text f self.now waits.now) }
    {
        let mut text = known_line(alloc, Known::Open)?;
        let wait = wait_text(alloc, f, &self.watched, waits)?;
        text.push_str(&wait)?;
        let silent = silent_text(alloc, self.heard.as_slice(), self.asked.as_slice())?;
        text.push_str(&silent)?;
        Ok(text)
    }
}
