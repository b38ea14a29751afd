//! Clients.
ghost use Rattle.std.specs.Prelude.{◌≡◌, ◌≤◌, ◌*◌, true, List, Some, OnOk, IfOk};
ghost use Rattle.cs_base.specs.NodeId.{is_node};
ghost use Rattle.cs_io.specs.declared.link.MemInput.TheVariants as came;
ghost use Rattle.cs_wire_message.specs.Message.{MessageFits};
ghost use Rattle.cs_client.specs.Inputs.{ClientInput, heard, client_input};
ghost use Rattle.cs_client.specs.Phases.{phase as phase_after};
ghost use Rattle.cs_client.specs.Kept.{ToldFits, ToldMarked};
ghost use Rattle.cs_client.specs.Seen.{PhaseFits, Counts};
ghost use Rattle.cs_client.specs.Hearing.{Hears, ClientTakesIn};

use crate::beliefs::Beliefs;
use crate::counting;
use crate::errand::Errand;
use crate::error::ClientError;
use crate::known::Known;
use crate::phases::{Phase, first, known_in, moved, say_again, submitted};
use crate::waiting::{Waiting, waiting_in};
use cs_approve::Book;
use cs_base::{Config, Memory, NodeId, Sequence};
use cs_config::{CallFile, Site};
use cs_tx_types::Session;
use cs_tx_value::Digest;
use cs_wire::{Input, Keys, Message, Out, read};
use std::alloc::Global;
use std::marker::Model;

/// A client: what it is to do, what it has been told, and the phase that it is in.
#[derive(Drop)]
pub struct ClientCore {
    errand: Errand,
    beliefs: Beliefs,
    phase: Phase,
}

impl Model for ClientCore {
    ghost use Rattle.std.specs.Coded.{codes};
    ghost use Rattle.cs_client.specs.contracts.errand.Errand as errands;
    ghost use Rattle.cs_client.specs.contracts.beliefs.Beliefs as beliefs_told;
    ghost use Rattle.cs_client.specs.contracts.phases.Phase as phases_kept;
    ghost use Rattle.cs_client.specs.Seen.{Client, IsSoundClient};

    ghost Value = { Client };

    ghost coded = { Prim.hlevel (
      codes,
      errands.the_row.coded,
      beliefs_told.the_row.coded,
      phases_kept.the_row.coded,
    ) };

    ghost view = { λ c. record {
      errand = c.errand;
      beliefs = c.beliefs;
      phase = c.phase;
    } };

    ghost invariant = { λ c. IsSoundClient c.errand c.beliefs c.phase };
}

// Counts what a node says of a session, where it is the one that is submitted.
fn count(config: &Config, phase: &mut Phase, from: NodeId, digest: &Digest, accepted: bool)
    requires member { from.index ≤ 3 * config.now.f }
    requires fits { PhaseFits config.now phase.old }
    ensures { Counts from digest.now accepted phase.old phase.new }
{
    if let Phase::Submitting(submission) = phase {
        if submission.digest == *digest {
            counting::hear(config, &mut submission.voices, from, accepted);
        }
    }
}

// Takes what a node says.
fn take(
    alloc: Global,
    errand: &Errand,
    beliefs: &mut Beliefs,
    phase: &mut Phase,
    from: NodeId,
    message: Message,
) -> Result<(), Memory>
    requires node { is_node errand.now.config from ≡ true }
    requires message { MessageFits errand.now.keys.version message }
    requires told { ToldFits errand.now.config beliefs.old }
    requires marked { ToldMarked errand.now.config.f beliefs.old }
    requires phase { PhaseFits errand.now.config phase.old }
    ensures { (past : List ClientInput) (input : ClientInput) →
        heard errand.now.keys input ≡ Some (from, message) →
        OnOk result (Hears errand.now past input beliefs.old phase.old beliefs.new phase.new) }
{
    match message {
        Message::Told { key, state } => beliefs.hear(alloc, &errand.config, from, key, state),
        Message::Decided { session, accepted } => {
            count(&errand.config, phase, from, &session, accepted);
            Ok(())
        }
        _ => Ok(()),
    }
}

// Takes a datagram. One that doesn't open, or isn't a node's, changes nothing.
fn hear(
    alloc: Global,
    errand: &Errand,
    beliefs: &mut Beliefs,
    phase: &mut Phase,
    bytes: &[u8],
) -> Result<(), Memory>
    requires told { ToldFits errand.now.config beliefs.old }
    requires marked { ToldMarked errand.now.config.f beliefs.old }
    requires phase { PhaseFits errand.now.config phase.old }
    ensures { (past : List ClientInput) →
        let input = came.Datagram bytes.now in
        OnOk result (Hears errand.now past input beliefs.old phase.old beliefs.new phase.new) }
{
    match read(alloc, &errand.keys, bytes)? {
        Ok((from, message)) => {
            if !errand.config.has_node(from) {
                return Ok(());
            }
            take(alloc, errand, beliefs, phase, from, message)
        }
        Err(_) => Ok(()),
    }
}

// Takes an input: hears a datagram, or says again what the phase says, which is told.
fn take_in(
    alloc: Global,
    errand: &Errand,
    beliefs: &mut Beliefs,
    phase: &mut Phase,
    input: Input<'_>,
) -> Result<Sequence<Out>, Memory>
    requires told { ToldFits errand.now.config beliefs.old }
    requires marked { ToldMarked errand.now.config.f beliefs.old }
    requires phase { PhaseFits errand.now.config phase.old }
    ensures { (past : List ClientInput) →
        let given = client_input input.entry in
        IfOk result (ClientTakesIn errand.now past given beliefs.old phase.old beliefs.new phase.new) }
{
    match input {
        Input::Datagram(bytes) => {
            hear(alloc, errand, beliefs, phase, bytes)?;
            Ok(Sequence::new(alloc))
        }
        Input::Tick => {
            let mut outs = Sequence::new(alloc);
            say_again(alloc, errand, phase, &mut outs)?;
            Ok(outs)
        }
    }
}

impl ClientCore {
    ghost use Rattle.std.specs.Prelude.{◌≡◌, ◌-◌, ◌^◌, ◌<◌, List, [], IfOk, IfSome, option_copied};
    ghost use Rattle.cs_client.specs.declared.errand.Errand.{Errand as AnyErrand};
    ghost use Rattle.cs_client.specs.Inputs.{ClientInput, client_input};
    ghost use Rattle.cs_client.specs.Knowing.{knows};
    ghost use Rattle.cs_client.specs.Phases.{submitted};
    ghost use Rattle.cs_client.specs.Standing.{errand_with, errand_again, ClientStandsFor, Steps};
    ghost use Rattle.cs_client.specs.Waits.{waiting};
    ghost use Rattle.cs_tx_types.specs.Session.{SessionFits};

    /// The client that makes this call, or submits the session of it that was made before; before
    /// its first input. To a peer for whom there is no key nothing is said; a key file holds all
    /// nodes of its site.
    pub fn start(
        alloc: Global,
        site: Site,
        keys: Keys,
        book: Book,
        call: CallFile,
        session: Option<Session>,
        dummy: Option<u64>,
    ) -> Result<ClientCore, Memory>
        requires { IfSome session SessionFits }
        ensures { IfOk result (ClientStandsFor (errand_with site keys book call session dummy) []) }
    {
        let config = site.config;
        let beliefs = Beliefs::new(
            alloc,
            &config,
            dummy,
            call.inputs.as_slice(),
            call.reads.as_slice(),
        )?;
        let errand = Errand {
            config,
            keys,
            book,
            call,
            session,
            dummy,
        };
        let phase = first(alloc, &errand)?;
        Ok(ClientCore {
            errand,
            beliefs,
            phase,
        })
    }

    /// The client after an input, with what it says, the oldest first. After a refusal of the
    /// method and after a want of memory there is no client.
    pub fn step(
        self,
        alloc: Global,
        input: Input<'_>,
    ) -> Result<(ClientCore, Sequence<Out>), ClientError>
        ensures { (e : AnyErrand) (past : List ClientInput) → ClientStandsFor e past self →
            Steps e past (client_input input.entry) result }
    {
        let ClientCore {
            errand,
            mut beliefs,
            mut phase,
        } = self;
        let mut outs = take_in(alloc, &errand, &mut beliefs, &mut phase, input)?;
        let phase = moved(alloc, &errand, &beliefs, phase, &mut outs)?;
        let client = ClientCore {
            errand,
            beliefs,
            phase,
        };
        Ok((client, outs))
    }

    /// The session that the client submits, where it has come to that.
    pub fn session(&self) -> Option<&Session>
        ensures session { (e : AnyErrand) (inputs : List ClientInput) →
            ClientStandsFor e inputs self.now →
            option_copied result ≡ submitted (phase_after e inputs) }
        ensures fits { IfSome (option_copied result) SessionFits }
    {
        submitted(&self.phase)
    }

    /// The deployment of the client.
    pub fn config(&self) -> &Config
        ensures { result.now ≡ self.now.errand.config }
    {
        &self.errand.config
    }

    /// The keys of the client.
    pub fn keys(&self) -> &Keys
        ensures { result.now ≡ self.now.errand.keys }
    {
        &self.errand.keys
    }

    /// The call that the client makes.
    pub fn call(&self) -> &CallFile
        ensures { result.now ≡ self.now.errand.call }
    {
        &self.errand.call
    }

    /// The number of the call.
    pub fn number(&self) -> u64
        ensures { result ≡ self.now.errand.call.number }
    {
        self.errand.call.number
    }

    /// The client that makes the call again, under the next number, before its first input: it has
    /// been told nothing.
    pub fn again(self, alloc: Global) -> Result<ClientCore, Memory>
        requires { self.errand.call.number < 2 ^ 64 - 1 }
        ensures { (e : AnyErrand) (inputs : List ClientInput) → ClientStandsFor e inputs self →
            IfOk result (ClientStandsFor (errand_again e) []) }
    {
        let ClientCore {
            mut errand,
            beliefs: _beliefs,
            phase: _phase,
        } = self;
        errand.call.number += 1;
        errand.session = None;
        let beliefs = Beliefs::new(
            alloc,
            &errand.config,
            errand.dummy,
            errand.call.inputs.as_slice(),
            errand.call.reads.as_slice(),
        )?;
        Ok(ClientCore {
            errand,
            beliefs,
            phase: Phase::Asking,
        })
    }

    /// What the client knows of its session.
    pub fn known(&self) -> Known
        ensures { (e : AnyErrand) (inputs : List ClientInput) → ClientStandsFor e inputs self.now →
            result ≡ knows e inputs }
    {
        known_in(&self.errand, &self.phase)
    }

    /// What the client waits for.
    pub fn waiting(&self, alloc: Global) -> Result<Waiting, Memory>
        ensures { (e : AnyErrand) (inputs : List ClientInput) → ClientStandsFor e inputs self.now →
            IfOk result (λ so. so ≡ waiting e inputs) }
    {
        waiting_in(alloc, &self.errand, &self.beliefs, &self.phase)
    }
}
