//! The events of a schedule, played at the nodes.
ghost use Rattle.std.specs.Prelude.{◌≡◌, ◌≤◌, length, drop, slice_get, string_bytes, IfOk, OnOk, IsErrOf};
ghost use Rattle.cs_base.specs.Outside.{HasCause};
ghost use Rattle.cs_base.specs.declared.limits.TheConstants.{MOST_BODY};
ghost use Rattle.cs_sched.specs.declared.schedule.Event.TheVariants.{Say};
ghost use Rattle.cs_node_rules.specs.World.{is_genuine};
ghost use Rattle.cs_replay_rules.specs.Play.{occurs, injects, delivers, drained, play, play_all};
ghost use Rattle.cs_node_rules.specs.Ready.{AllQuiet};
ghost use Rattle.cs_node.specs.Notes.{NotesFit};
ghost use Rattle.cs_node.specs.Speaking.{input_of};
ghost use Rattle.cs_replay_play.specs.Forging.{is_backed_by};
ghost use Rattle.cs_replay_play.specs.Standing.{site_in, HasNode, IsShortEvent, AllShort, IsToAnother, AllToOthers};
ghost use Rattle.cs_replay_play.specs.Told.{told_text, IsTold};
ghost use Rattle.cs_replay_play.specs.Ends.{Sends, Always, Plays, ReplayTakesIn, WhereStands};
ghost use Rattle.cs_replay_play.specs.declared.halt.Halt.TheVariants.{Failed as SinkFailed};

use crate::cores::{deliver, place_of, sender_at};
use crate::halt::Halt;
use crate::history::History;
use crate::logs::keep_told;
use crate::node_log::NodeLog;
use crate::parcel::Parcel;
use crate::post::{Post, SendError};
use crate::telling::{head_text, sent_text, tell};
use crate::voices::Voices;
use cs_base::{MOST_EVENTS, Memory, NodeId, Sequence, Sink, print};
use cs_node::{Carried, Core, Made};
use cs_sched::Event;
use cs_tx::Judge;
use cs_wire::{Input, Out};
use std::alloc::Global;

/// A replay under way.
#[derive(Drop)]
pub struct Replay<O: Carried, J: Judge + Drop> {
    /// The honest nodes.
    pub cores: Vec<Core<O, J>>,
    /// The log of each of them, in the same order.
    pub logs: Vec<NodeLog>,
    pub history: History,
    pub post: Post,
    pub voices: Voices,
    /// How many events there were.
    pub events: u64,
    /// Whether all is printed that happens.
    pub traced: bool,
}

impl<O: Carried, J: Judge + Drop> Replay<O, J> {
    /// Plays the events, each by the line of its number, and prints what comes of them. It stops
    /// at the first that would pass a limit or inject what is forged. Wherever it stands then, no
    /// rule applies at an honest node.
    pub fn play_all<K: Sink>(
        &mut self,
        alloc: Global,
        events: &[(u64, Event)],
        output: &mut K,
    ) -> Result<(), Halt>
        requires { AllShort events.now }
        ensures ends { Plays O.stands J.is_approved O.rules O.carrier
            self.old (K.written output.old) self.new (K.written output.new) result
            (λ s. AllToOthers s events.now)
            (λ site traced. play_all site traced events.now) }
        ensures quiet { WhereStands O.stands J.is_approved O.rules O.carrier self.new (λ s p.
            AllQuiet (site_in O.rules O.carrier s) p.world) }
        ensures cause { HasCause (K.faults output.old) (K.faults output.new)
            (IsErrOf result SinkFailed) }
    {
        for (line, event) in events {
            self.play(alloc, *line, event, output)?;
        }
        Ok(())
    }

    // One event.
    fn play<K: Sink>(
        &mut self,
        alloc: Global,
        line: u64,
        event: &Event,
        output: &mut K,
    ) -> Result<(), Halt>
        requires { IsShortEvent event.now }
        ensures ends { Plays O.stands J.is_approved O.rules O.carrier
            self.old (K.written output.old) self.new (K.written output.new) result
            (λ s. IsToAnother s event.now)
            (λ site traced. play site traced line event.now) }
        ensures cause { HasCause (K.faults output.old) (K.faults output.new)
            (IsErrOf result SinkFailed) }
    {
        match event {
            Event::Say {
                from,
                to,
                kind,
                body,
            } => self.say(alloc, line, (*from, *to), *kind, body.as_slice(), output),
            Event::Inject { to, bytes } => {
                self.inject(alloc, line, *to, bytes.as_slice(), output)
            }
            Event::Deliver { number } => self.deliver(alloc, line, *number, output),
            Event::Tick { node } => self.occur(alloc, line, *node, Input::Tick, output),
            Event::Drain { times } => self.drain(alloc, line, *times, output),
        }
    }

    // One name says something to another.
    fn say<K: Sink>(
        &mut self,
        alloc: Global,
        line: u64,
        names: (NodeId, NodeId),
        kind: u8,
        body: &[u8],
        output: &mut K,
    ) -> Result<(), Halt>
        requires { length body.now ≤ MOST_BODY }
        ensures ends { Plays O.stands J.is_approved O.rules O.carrier
            self.old (K.written output.old) self.new (K.written output.new) result
            (λ s. IsToAnother s (Say names.0 names.1 kind body.now))
            (λ site traced. play site traced line (Say names.0 names.1 kind body.now)) }
        ensures cause { HasCause (K.faults output.old) (K.faults output.new)
            (IsErrOf result SinkFailed) }
    {
        let (from, to) = names;
        let bytes = self.voices.say(alloc, from, to, kind, body)?;
        self.occur(alloc, line, to, Input::Datagram(&bytes), output)
    }

    // Bytes are given to a node, unless they are forged.
    fn inject<K: Sink>(
        &mut self,
        alloc: Global,
        line: u64,
        to: NodeId,
        bytes: &[u8],
        output: &mut K,
    ) -> Result<(), Halt>
        ensures ends { Plays O.stands J.is_approved O.rules O.carrier
            self.old (K.written output.old) self.new (K.written output.new) result
            (λ s. HasNode s.names s.count to)
            (λ site traced. injects site traced line to bytes.now) }
        ensures cause { HasCause (K.faults output.old) (K.faults output.new)
            (IsErrOf result SinkFailed) }
    {
        if self.events >= MOST_EVENTS {
            return Err(Halt::Limit(line));
        }
        let genuine = self.is_genuine(to, bytes);
        if !genuine {
            return Err(Halt::Forged(line));
        }
        self.occur(alloc, line, to, Input::Datagram(bytes), output)
    }

    // Whether what opens at a node as from an honest node was sent by it.
    fn is_genuine(&self, to: NodeId, bytes: &[u8]) -> bool
        ensures { WhereStands O.stands J.is_approved O.rules O.carrier self.now (λ s p.
            HasNode s.names s.count to → result ≡ is_genuine s.net to bytes.now p.parcels) }
    {
        let sender = sender_at(self.cores.as_slice(), to, bytes);
        match sender {
            Some(from) => self.is_backed(from, to, bytes),
            None => true,
        }
    }

    fn is_backed(&self, from: NodeId, to: NodeId, bytes: &[u8]) -> bool
        ensures { WhereStands O.stands J.is_approved O.rules O.carrier self.now (λ s p.
            result ≡ is_backed_by s.net to bytes.now p.parcels from) }
    {
        match place_of(self.cores.as_slice(), from) {
            Some(_) => self.post.was_sent(from, to, bytes),
            None => true,
        }
    }

    // The oldest datagram that never came to its addressee comes, so many times.
    fn drain<K: Sink>(
        &mut self,
        alloc: Global,
        line: u64,
        times: u64,
        output: &mut K,
    ) -> Result<(), Halt>
        ensures ends { Plays O.stands J.is_approved O.rules O.carrier
            self.old (K.written output.old) self.new (K.written output.new) result
            Always
            (λ site traced. drained site traced line times) }
        ensures cause { HasCause (K.faults output.old) (K.faults output.new)
            (IsErrOf result SinkFailed) }
    {
        let mut left = times;
        while left > 0 {
            match self.post.first_left() {
                None => return Ok(()),
                Some(number) => self.deliver(alloc, line, number, output)?,
            }
            left -= 1;
        }
        Ok(())
    }

    // The datagram of this number comes to its addressee. What comes to a liar or a client is no
    // event.
    fn deliver<K: Sink>(
        &mut self,
        alloc: Global,
        line: u64,
        number: u64,
        output: &mut K,
    ) -> Result<(), Halt>
        ensures ends { Plays O.stands J.is_approved O.rules O.carrier
            self.old (K.written output.old) self.new (K.written output.new) result
            Always
            (λ site traced p. delivers site traced line number (slice_get p.parcels number) p) }
        ensures cause { HasCause (K.faults output.old) (K.faults output.new)
            (IsErrOf result SinkFailed) }
    {
        let Some(parcel) = self.post.get(number) else {
            return Ok(());
        };
        let to = parcel.to();
        let bytes = parcel.bytes().to_vec(alloc)?;
        self.post.arrive(number);
        match place_of(self.cores.as_slice(), to) {
            None => Ok(()),
            Some(_) => self.occur(alloc, line, to, Input::Datagram(&bytes), output),
        }
    }

    // An input at a node, and the lines of what comes of it.
    fn occur<K: Sink>(
        &mut self,
        alloc: Global,
        line: u64,
        to: NodeId,
        input: Input<'_>,
        output: &mut K,
    ) -> Result<(), Halt>
        ensures ends { Plays O.stands J.is_approved O.rules O.carrier
            self.old (K.written output.old) self.new (K.written output.new) result
            (λ s. HasNode s.names s.count to)
            (λ site traced. occurs site traced line to (input_of input.entry)) }
        ensures cause { HasCause (K.faults output.old) (K.faults output.new)
            (IsErrOf result SinkFailed) }
    {
        let text = self.take_in(alloc, line, to, input)?;
        print(output, text.as_bytes())?;
        Ok(())
    }

    // An input at a node, unless it would be an event too many, or too much would have been sent:
    // the lines of what comes of it.
    fn take_in(
        &mut self,
        alloc: Global,
        line: u64,
        to: NodeId,
        input: Input<'_>,
    ) -> Result<String, Halt>
        ensures takes { ReplayTakesIn O.stands J.is_approved O.rules O.carrier self.old self.new result
            (λ s. HasNode s.names s.count to)
            (λ site traced. occurs site traced line to (input_of input.entry)) }
        ensures sink { IsErrOf result SinkFailed → ⊥ }
    {
        if self.events >= MOST_EVENTS {
            return Err(Halt::Limit(line));
        }
        let made = deliver(alloc, &mut self.cores, to, input)?;
        let number = self.post.len();
        send_all(alloc, &mut self.post, line, to, made.outs.as_slice())?;
        let text = self.tell(alloc, line, to, &made, number)?;
        keep_told(alloc, self.cores.as_slice(), &mut self.logs, to, made.notes)?;
        self.events += 1;
        Ok(text)
    }

    // The lines of an event at a node. The first datagram that it sent has this number.
    fn tell(
        &mut self,
        alloc: Global,
        line: u64,
        me: NodeId,
        made: &Made,
        number: usize,
    ) -> Result<String, Memory>
        requires fit { NotesFit made.now.notes }
        requires number { number ≤ length self.old.post }
        ensures text { IfOk result (λ text. string_bytes text
            ≡ told_text self.old.traced self.old.events line me
            made.now.notes number (drop number self.old.post)) }
        ensures kept { OnOk result (IsTold me made.now.notes self.old.history self.new.history) }
        ensures rest { self.new ≡ record self.old { history = self.new.history } }
    {
        let mut text = head_text(alloc, self.traced, self.events, line)?;
        let notes = tell(
            alloc,
            &mut self.history,
            self.traced,
            me,
            made.notes.as_slice(),
        )?;
        text.push_str(&notes)?;
        let sent = self.post.sent_since(number);
        let sent = sent_text(alloc, self.traced, number, sent)?;
        text.push_str(&sent)?;
        Ok(text)
    }
}

// Sends what goes out of a node.
fn send_all(
    alloc: Global,
    post: &mut Post,
    line: u64,
    from: NodeId,
    outs: &[Out],
) -> Result<(), Halt>
    ensures { Sends line from outs.now post.old post.new result }
{
    for out in outs {
        let bytes = out.bytes.as_slice().to_vec(alloc)?;
        let parcel = Parcel::new(from, out.to, Sequence::from_vec(bytes));
        match post.send(parcel) {
            Ok(()) => {}
            Err(SendError::Full) => return Err(Halt::Limit(line)),
            Err(SendError::Memory) => return Err(Halt::Memory),
        }
    }
    Ok(())
}
