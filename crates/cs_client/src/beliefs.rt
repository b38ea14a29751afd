//! What nodes told a client last, of the objects of its call and of dummies.
ghost use Rattle.std.specs.Prelude.{◌≡◌, ◌+◌, ◌*◌, ◌<◌, ◌≤◌, ◌++◌, map, replicate, length, [], None, OnOk, IfOk};
ghost use Rattle.cs_client.specs.Kept.{unheard_on, with_word, word_of_name, named_kept, with_dummy_word, WordFits, AskedFits, EachFits, are_settled, objects_believed};
ghost use Rattle.cs_client.specs.Waits.{unsettled};

use crate::objects::{believed, copy_word, put_word, word_told};
use cs_base::{Config, Key, Memory, NodeId, Sequence, shard_of};
use cs_dummies::{least_named, named_with};
use cs_tx_types::State;
use cs_tx_value::{Digest, Encoded, Object};
use std::alloc::Global;
use std::marker::Model;

/// A name of which nodes are asked, with the last word of each node of its shard: the object that
/// it told as active or shared, or none.
#[derive(Drop)]
pub struct Asked {
    pub name: Digest,
    pub words: Sequence<Option<Object>>,
    /// Whether an object is believed.
    pub settled: bool,
}

/// Objects under their names, to be used up and to be read.
#[derive(Drop)]
pub struct Objects {
    pub inputs: Sequence<(Digest, Object)>,
    pub reads: Sequence<(Digest, Object)>,
}

/// The last words of nodes on all that a client is to know.
#[derive(Drop)]
pub struct Beliefs {
    /// On the objects that the method may use up.
    inputs: Vec<Asked>,
    /// On those that it may read.
    reads: Vec<Asked>,
    /// The serial from which on dummies are asked for, or none where any is.
    first: Option<u64>,
    /// Of each shard, and of each node there, the serials of the dummies that it names.
    serials: Vec<Sequence<Sequence<u64>>>,
}

impl Model for Beliefs {
    ghost use Rattle.std.specs.Coded.{codes};
    ghost use Rattle.cs_tx_value.specs.contracts.value.Value as value;
    ghost use Rattle.cs_client.specs.Kept.{WordsTold};

    ghost Value = { WordsTold };

    ghost coded = { Prim.hlevel (codes, value.the_row.coded) };

    ghost view = { λ b. record {
      inputs = b.inputs.items;
      reads = b.reads.items;
      first = b.first;
      serials = b.serials.items;
    } };
}

// No word of so many nodes.
fn no_words(alloc: Global, members: u16) -> Result<Sequence<Option<Object>>, Memory>
    ensures { IfOk result (λ words. words ≡ replicate members None) }
{
    let mut words = Sequence::new(alloc);
    for _member in 0..members {
        words.push(None)?;
    }
    Ok(words)
}

// Names of which no node has told anything.
fn unheard(alloc: Global, names: &[Digest], members: u16) -> Result<Vec<Asked>, Memory>
    ensures { IfOk result (λ asked. asked.items ≡ map (unheard_on members) names.now) }
{
    let mut asked = Vec::new(alloc);
    for name in names {
        asked.push(Asked {
            name: *name,
            words: no_words(alloc, members)?,
            settled: false,
        })?;
    }
    Ok(asked)
}

// So many nodes that name no dummy.
fn none_named(alloc: Global, members: u16) -> Result<Sequence<Sequence<u64>>, Memory>
    ensures { IfOk result (λ words. words ≡ replicate members []) }
{
    let mut words = Sequence::new(alloc);
    for _member in 0..members {
        words.push(Sequence::new(alloc))?;
    }
    Ok(words)
}

// Shards of which no node has told of a dummy.
fn no_serials(
    alloc: Global,
    shards: u16,
    members: u16,
) -> Result<Vec<Sequence<Sequence<u64>>>, Memory>
    ensures { IfOk result (λ all. all.items ≡ replicate shards (replicate members [])) }
{
    let mut all = Vec::new(alloc);
    for _shard in 0..shards {
        all.push(none_named(alloc, members)?)?;
    }
    Ok(all)
}

// What the node of this index names.
fn named_at(words: &[Sequence<u64>], index: usize) -> &[u64]
    ensures { result.now ≡ named_kept words.now index }
{
    match words.get(index) {
        Some(named) => named.as_slice(),
        None => &[],
    }
}

// Hears a node's word on a dummy, where these are named by the nodes of its shard.
fn hear_dummy(
    alloc: Global,
    first: Option<u64>,
    words: &mut Sequence<Sequence<u64>>,
    index: u16,
    serial: u64,
    active: bool,
) -> Result<(), Memory>
    requires { index < length words.old }
    ensures { OnOk result (words.new ≡ with_dummy_word first index (serial, active) words.old) }
{
    let place = usize::from(index);
    let before = named_at(words.as_slice(), place);
    let named = named_with(alloc, first, serial, active, before)?;
    put_word(alloc, words, place, named);
    Ok(())
}

// Hears a node's word on a name.
fn hear_word(
    alloc: Global,
    config: &Config,
    asked: &mut Asked,
    index: u16,
    word: &Option<Object>,
) -> Result<(), Memory>
    requires member { index ≤ 3 * config.now.f }
    requires asked { AskedFits (3 * config.now.f + 1) asked.old }
    requires word { WordFits word.now }
    ensures { OnOk result (asked.new ≡ with_word config.now.f index word.now asked.old) }
{
    let word = copy_word(alloc, word)?;
    put_word(alloc, &mut asked.words, usize::from(index), word);
    asked.settled = believed(config.f, asked.words.as_slice()).is_some();
    Ok(())
}

// Hears a node's word on each of these that is of this name.
fn hear_words(
    alloc: Global,
    config: &Config,
    asked: &mut [Asked],
    name: &Digest,
    index: u16,
    word: &Option<Object>,
) -> Result<(), Memory>
    requires member { index ≤ 3 * config.now.f }
    requires asked { EachFits (3 * config.now.f + 1) asked.old }
    requires word { WordFits word.now }
    ensures { OnOk result
        (asked.new ≡ map (word_of_name config.now.f name.now index word.now) asked.old) }
{
    for i in 0..asked.len() {
        if asked[i].name == *name {
            hear_word(alloc, config, &mut asked[i], index, word)?;
        }
    }
    Ok(())
}

fn are_settled(asked: &[Asked]) -> bool
    ensures { result ≡ are_settled asked.now }
{
    asked.iter().all(|one| one.settled)
}

// The objects that are believed, each under its name, where each name has one.
fn objects_in(
    alloc: Global,
    config: &Config,
    asked: &[Asked],
) -> Result<Option<Sequence<(Digest, Object)>>, Memory>
    requires { EachFits (3 * config.now.f + 1) asked.now }
    ensures { IfOk result (λ objects. objects ≡ objects_believed config.now.f asked.now) }
{
    let mut objects = Sequence::new(alloc);
    for one in asked {
        let Some(object) = believed(config.f, one.words.as_slice()) else {
            return Ok(None);
        };
        objects.push((one.name, object.copy(alloc)?))?;
    }
    Ok(Some(objects))
}

// Adds the names of these under which no object is believed.
fn add_unsettled(names: &mut Sequence<Digest>, asked: &[Asked]) -> Result<(), Memory>
    ensures { OnOk result (names.new ≡ names.old ++ unsettled asked.now) }
{
    for one in asked {
        if !one.settled {
            names.push(one.name)?;
        }
    }
    Ok(())
}

impl Beliefs {
    ghost use Rattle.std.specs.Prelude.{◌≡◌, ◌<◌, ◌≤◌, ◌*◌, true, length, filter, OnOk, IfOk, IfSome};
    ghost use Rattle.std.specs.List.{AllByRecursion};
    ghost use Rattle.cs_tx_types.specs.Session.{DummyFits};
    ghost use Rattle.cs_base.specs.NodeId.{is_node};
    ghost use Rattle.cs_tx_types.specs.State.{StateFits};
    ghost use Rattle.cs_client.specs.Dummies.{dummies_for};
    ghost use Rattle.cs_client.specs.Waits.{names_unsettled, lacks_kept};
    ghost use Rattle.cs_client.specs.Kept.{unheard, ToldFits, ToldMarked, WordFits, with_serial, told_with_state, heard_of, objects_kept, serials_kept, dummy_kept};

    /// What a client has been told before its first input: nothing.
    pub fn new(
        alloc: Global,
        config: &Config,
        first: Option<u64>,
        inputs: &[Digest],
        reads: &[Digest],
    ) -> Result<Beliefs, Memory>
        ensures { IfOk result (λ beliefs. beliefs ≡ unheard config.now first inputs.now reads.now) }
    {
        let members = 3 * config.f + 1;
        Ok(Beliefs {
            inputs: unheard(alloc, inputs, members)?,
            reads: unheard(alloc, reads, members)?,
            first,
            serials: no_serials(alloc, config.shards, members)?,
        })
    }

    // Hears a node's word on a dummy of its shard.
    fn hear_serial(
        &mut self,
        alloc: Global,
        from: NodeId,
        serial: u64,
        active: bool,
    ) -> Result<(), Memory>
        requires { from.index < length (serials_kept self.old.serials from.shard) }
        ensures { OnOk result (self.new ≡ record self.old {
          serials = with_serial self.old.first from.shard from.index (serial, active) self.old.serials;
        }) }
    {
        let first = self.first;
        match self.serials.get_mut(usize::from(from.shard)) {
            Some(words) => hear_dummy(alloc, first, words, from.index, serial, active),
            None => Ok(()),
        }
    }

    // Hears a node's word on a key of its shard.
    fn hear_key(
        &mut self,
        alloc: Global,
        config: &Config,
        from: NodeId,
        key: Key,
        word: &Option<Object>,
    ) -> Result<(), Memory>
        requires member { from.index ≤ 3 * config.now.f }
        requires place { from.index < length (serials_kept self.old.serials from.shard) }
        requires told { ToldFits config.now self.old }
        requires word { WordFits word.now }
        ensures { OnOk result (self.new ≡ told_with_state config.now.f from key word.now self.old) }
    {
        match key {
            Key::Object(name) => {
                hear_words(alloc, config, &mut self.inputs, &name, from.index, word)?;
                hear_words(alloc, config, &mut self.reads, &name, from.index, word)?;
            }
            Key::Dummy(_, serial) => self.hear_serial(alloc, from, serial, word.is_some())?,
        }
        Ok(())
    }

    /// Hears what a node told of a key. It counts where the node is one of the key's shard.
    pub fn hear(
        &mut self,
        alloc: Global,
        config: &Config,
        from: NodeId,
        key: Key,
        state: State,
    ) -> Result<(), Memory>
        requires node { is_node config.now from ≡ true }
        requires state { StateFits state }
        requires told { ToldFits config.now self.old }
        ensures { OnOk result (self.new ≡ heard_of config.now from key state self.old) }
    {
        if shard_of(config, &key) != from.shard {
            return Ok(());
        }
        self.hear_key(alloc, config, from, key, &word_told(&key, state))
    }

    /// The objects to be used up and those to be read, where one is believed under each name.
    pub fn ready(&self, alloc: Global, config: &Config) -> Result<Option<Objects>, Memory>
        requires fits { ToldFits config.now self.now }
        requires marked { ToldMarked config.now.f self.now }
        ensures { IfOk result (λ objects. objects ≡ objects_kept config.now.f self.now) }
    {
        if !are_settled(&self.inputs) || !are_settled(&self.reads) {
            return Ok(None);
        }
        let Some(inputs) = objects_in(alloc, config, &self.inputs)? else {
            return Ok(None);
        };
        let Some(reads) = objects_in(alloc, config, &self.reads)? else {
            return Ok(None);
        };
        Ok(Some(Objects { inputs, reads }))
    }

    // The dummy that is believed in a shard.
    fn dummy_in(&self, f: u16, shard: u16) -> Option<u64>
        ensures { result ≡ dummy_kept f self.now.serials shard }
    {
        match self.serials.get(usize::from(shard)) {
            Some(words) => least_named(f, words.as_slice()),
            None => None,
        }
    }

    /// A dummy of each of these shards, where one is believed in each.
    pub fn dummies(
        &self,
        alloc: Global,
        f: u16,
        shards: &[u16],
    ) -> Result<Option<Sequence<(u16, u64)>>, Memory>
        ensures found { IfOk result (λ dummies.
            dummies ≡ dummies_for (dummy_kept f self.now.serials) shards.now) }
        ensures fit { IfOk result (λ dummies. IfSome dummies (AllByRecursion DummyFits)) }
    {
        let mut dummies = Sequence::new(alloc);
        for shard in shards {
            let Some(serial) = self.dummy_in(f, *shard) else {
                return Ok(None);
            };
            dummies.push((*shard, serial))?;
        }
        Ok(Some(dummies))
    }

    /// The names under which no object is believed, those of objects to be used up first.
    pub fn unsettled(&self, alloc: Global) -> Result<Sequence<Digest>, Memory>
        ensures { IfOk result (λ names. names ≡ names_unsettled self.now) }
    {
        let mut names = Sequence::new(alloc);
        add_unsettled(&mut names, &self.inputs)?;
        add_unsettled(&mut names, &self.reads)?;
        Ok(names)
    }

    /// Those of these shards in which no dummy is believed.
    pub fn lacking(&self, alloc: Global, f: u16, shards: &[u16]) -> Result<Sequence<u16>, Memory>
        ensures { IfOk result (λ lacking.
            lacking ≡ filter (lacks_kept f self.now.serials) shards.now) }
    {
        let mut lacking = Sequence::new(alloc);
        for shard in shards {
            if self.dummy_in(f, *shard).is_none() {
                lacking.push(*shard)?;
            }
        }
        Ok(lacking)
    }
}
