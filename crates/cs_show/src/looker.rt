//! A client that looks a key up.
ghost use Rattle.std.specs.Prelude.{◌≡◌, List, ◌∷◌, Some, None, replicate, OnOk, IfOk};
ghost use Rattle.cs_base.specs.declared.key.Key.TheVariants as key;
ghost use Rattle.cs_io.specs.declared.link.MemInput.TheVariants as came;
ghost use Rattle.cs_base.specs.declared.version.Version.{Version};
ghost use Rattle.cs_wire_message.specs.Message.{MessageFits};
ghost use Rattle.cs_wire_message.specs.declared.message.Message.TheVariants as message;
ghost use Rattle.cs_client.specs.Inputs.{ClientInput, heard};
ghost use Rattle.cs_client.specs.Sayings.{outs_of_sayings};
ghost use Rattle.cs_show.specs.Words.{shard_asked, words_of};
ghost use Rattle.cs_show.specs.Sayings.{asks};

use crate::lookup::Lookup;
use crate::words::{first_said, line_in, put_word};
use cs_base::{Key, Memory, NodeId, Sequence, shard_of};
use cs_client::{nodes_of, say};
use cs_io::Text;
use cs_tx_value::Digest;
use cs_wire::{Message, Out, read};
use std::alloc::Global;

/// A client that looks a key up.
#[derive(Drop)]
pub struct Looker {
    pub lookup: Lookup,
    /// The shard of the key.
    pub shard: u16,
    /// What it asks at each tick.
    pub asks: Sequence<Out>,
    /// The last word of each node of the shard, as the line that is printed of it.
    pub words: Vec<Option<Text>>,
    ghost in_shard: { shard ≡ shard_asked lookup },
}

// No word of so many nodes.
fn no_words(alloc: Global, members: u16) -> Result<Vec<Option<Text>>, Memory>
    ensures { IfOk result (λ words. words.items ≡ replicate members None) }
{
    let mut words = Vec::new(alloc);
    for _member in 0..members {
        words.push(None)?;
    }
    Ok(words)
}

// The message that asks for an object.
fn ask_object(name: Digest) -> Message
    ensures asks { result ≡ message.Ask (Some (key.Object name)) }
    ensures fits { (version : Version) → MessageFits version result }
{
    Message::Ask(Some(Key::Object(name)))
}

// The message that asks for a key.
fn ask(key: &Key) -> Message
    ensures asks { result ≡ message.Ask (Some key.now) }
    ensures fits { (version : Version) → MessageFits version result }
{
    match key {
        Key::Object(name) => ask_object(*name),
        Key::Dummy(shard, serial) => Message::Ask(Some(Key::Dummy(*shard, *serial))),
    }
}

// What is asked of all nodes of the key's shard.
fn asks(alloc: Global, lookup: &Lookup, shard: u16) -> Result<Sequence<Out>, Memory>
    requires { shard ≡ shard_asked lookup.now }
    ensures { IfOk result (λ outs. outs ≡ outs_of_sayings lookup.now.keys (asks lookup.now)) }
{
    let nodes = nodes_of(alloc, &lookup.config, &[shard])?;
    let mut outs = Sequence::new(alloc);
    say(
        alloc,
        &lookup.keys,
        nodes.as_slice(),
        &ask(&lookup.key),
        &mut outs,
    )?;
    Ok(outs)
}

// Takes what a node says.
fn take(
    alloc: Global,
    lookup: &Lookup,
    shard: u16,
    words: &mut Vec<Option<Text>>,
    from: NodeId,
    message: &Message,
) -> Result<(), Memory>
    requires shard { shard ≡ shard_asked lookup.now }
    requires message { MessageFits lookup.now.keys.version message.now }
    ensures { (past : List ClientInput) (input : ClientInput) →
        heard lookup.now.keys input ≡ Some (from, message.now) →
        words.old.items ≡ words_of lookup.now past →
        OnOk result (words.new.items ≡ words_of lookup.now (input ∷ past)) }
{
    let Some(line) = line_in(alloc, &lookup.key, message)? else {
        return Ok(());
    };
    put_word(words, shard, from, line);
    Ok(())
}

// Takes a datagram. One that doesn't open changes nothing.
fn hear(
    alloc: Global,
    lookup: &Lookup,
    shard: u16,
    words: &mut Vec<Option<Text>>,
    bytes: &[u8],
) -> Result<(), Memory>
    requires { shard ≡ shard_asked lookup.now }
    ensures { (past : List ClientInput) →
        words.old.items ≡ words_of lookup.now past →
        OnOk result (words.new.items ≡ words_of lookup.now (came.Datagram bytes.now ∷ past)) }
{
    match read(alloc, &lookup.keys, bytes)? {
        Ok((from, message)) => take(alloc, lookup, shard, words, from, &message),
        Err(_) => Ok(()),
    }
}

impl Looker {
    ghost use Rattle.std.specs.Prelude.{◌≡◌, List, ◌∷◌, [], IfOk, option_copied};
    ghost use Rattle.cs_io.specs.declared.link.MemInput.TheVariants as came;
    ghost use Rattle.cs_client.specs.Inputs.{ClientInput};
    ghost use Rattle.cs_show.specs.declared.lookup.Lookup.{Lookup as AnyLookup};
    ghost use Rattle.cs_show.specs.Words.{seen};
    ghost use Rattle.cs_show.specs.Standing.{LookerStandsFor};

    /// The client that looks this up, before its first input.
    pub fn start(alloc: Global, lookup: Lookup) -> Result<Looker, Memory>
        ensures { IfOk result (LookerStandsFor lookup []) }
    {
        let shard = shard_of(&lookup.config, &lookup.key);
        let asks = asks(alloc, &lookup, shard)?;
        let words = no_words(alloc, 3 * lookup.config.f + 1)?;
        Ok(Looker {
            lookup,
            shard,
            asks,
            words,
        })
    }

    /// The client after a datagram.
    pub fn hear(self, alloc: Global, bytes: &[u8]) -> Result<Looker, Memory>
        ensures { (lookup : AnyLookup) (past : List ClientInput) → LookerStandsFor lookup past self →
            IfOk result (LookerStandsFor lookup (came.Datagram bytes.now ∷ past)) }
    {
        let Looker {
            lookup,
            shard,
            asks,
            mut words,
        } = self;
        hear(alloc, &lookup, shard, &mut words, bytes)?;
        Ok(Looker {
            lookup,
            shard,
            asks,
            words,
        })
    }

    /// The line of what f+1 nodes told last.
    pub fn seen(&self) -> Option<&Text>
        ensures { (lookup : AnyLookup) (inputs : List ClientInput) →
            LookerStandsFor lookup inputs self.now → option_copied result ≡ seen lookup inputs }
    {
        first_said(self.lookup.config.f, self.words.as_slice())
    }
}
