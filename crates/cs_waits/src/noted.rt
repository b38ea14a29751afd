//! A client that may keep notes.
ghost use Rattle.std.specs.Prelude.{◌≡◌, [], option_map, OnOk, IfOk};
ghost use Rattle.cs_client.specs.declared.errand.Errand.{Errand};
ghost use Rattle.cs_client.specs.Inputs.{heard, client_input};
ghost use Rattle.cs_client.specs.Standing.{ClientStandsFor};
ghost use Rattle.cs_waits.specs.Notes.{after_said, after_asking};
ghost use Rattle.cs_waits.specs.Standing.{notes_if};

use crate::notes::Notes;
use cs_base::{Memory, Sequence};
use cs_client::{ClientCore, ClientError, Input, Out};
use cs_io::Text;
use std::alloc::Global;

/// A client, and its notes where it is to keep some.
#[derive(Drop)]
pub struct NotedClient {
    client: ClientCore,
    notes: Option<Notes>,
}

// What a client notes before its first input, where it is to.
fn notes_for(alloc: Global, client: &ClientCore, details: bool) -> Result<Option<Notes>, Memory>
    ensures { (e : Errand) → ClientStandsFor e [] client.now →
        IfOk result (λ notes. notes ≡ notes_if details e []) }
{
    if details {
        let notes = Notes::new(alloc, client.config(), client.call())?;
        Ok(Some(notes))
    } else {
        Ok(None)
    }
}

// Notes what is heard by an input.
fn hear_input(
    alloc: Global,
    client: &ClientCore,
    notes: &mut Notes,
    input: Input<'_>,
) -> Result<(), Memory>
    ensures { let e = client.now.errand in
        let said = heard e.keys (client_input input.entry) in
        OnOk result (notes.new ≡ after_said e.config said notes.old) }
{
    match input {
        Input::Datagram(bytes) => notes.hear(alloc, client.config(), client.keys(), bytes),
        Input::Tick => Ok(()),
    }
}

// The same, where there are notes.
fn hear(
    alloc: Global,
    client: &ClientCore,
    notes: &mut Option<Notes>,
    input: Input<'_>,
) -> Result<(), Memory>
    ensures { let e = client.now.errand in
        let said = heard e.keys (client_input input.entry) in
        OnOk result (notes.new ≡ option_map (after_said e.config said) notes.old) }
{
    match notes {
        Some(notes) => hear_input(alloc, client, notes, input),
        None => Ok(()),
    }
}

// Notes whom the client asks, where there are notes.
fn ask(notes: &mut Option<Notes>, outs: &[Out]) -> Result<(), Memory>
    ensures { OnOk result (notes.new ≡ option_map (after_asking outs.now) notes.old) }
{
    match notes {
        Some(notes) => notes.ask(outs),
        None => Ok(()),
    }
}

impl NotedClient {
    ghost use Rattle.std.specs.Prelude.{◌≡◌, ◌<◌, ◌-◌, ◌^◌, Bool, List, [], IfOk};
    ghost use Rattle.cs_client.specs.declared.errand.Errand.{Errand as AnyErrand};
    ghost use Rattle.cs_client.specs.Inputs.{ClientInput, client_input};
    ghost use Rattle.cs_client.specs.Standing.{errand_again, ClientStandsFor};
    ghost use Rattle.cs_waits.specs.Standing.{NotedStandsFor, NotedSteps, lines_if};

    /// A client before its first input, which keeps notes where details are to be told.
    pub fn start(alloc: Global, client: ClientCore, details: bool) -> Result<NotedClient, Memory>
        ensures { (e : AnyErrand) → ClientStandsFor e [] client →
            IfOk result (NotedStandsFor e details []) }
    {
        let notes = notes_for(alloc, &client, details)?;
        Ok(NotedClient { client, notes })
    }

    /// The client.
    pub fn client(&self) -> &ClientCore
        ensures { result.now ≡ self.now.client }
    {
        &self.client
    }

    /// The client after an input, with what it says, the oldest first.
    pub fn step(
        self,
        alloc: Global,
        input: Input<'_>,
    ) -> Result<(NotedClient, Sequence<Out>), ClientError>
        ensures { (e : AnyErrand) (details : Bool) (past : List ClientInput) →
            NotedStandsFor e details past self →
            NotedSteps e details past (client_input input.entry) result }
    {
        let NotedClient { client, mut notes } = self;
        hear(alloc, &client, &mut notes, input)?;
        let (client, outs) = client.step(alloc, input)?;
        ask(&mut notes, outs.as_slice())?;
        Ok((NotedClient { client, notes }, outs))
    }

    /// The client that makes the call again, under the next number, before its first input.
    pub fn again(self, alloc: Global) -> Result<NotedClient, Memory>
        requires { self.client.errand.call.number < 2 ^ 64 - 1 }
        ensures { (e : AnyErrand) (details : Bool) (inputs : List ClientInput) →
            NotedStandsFor e details inputs self →
            IfOk result (NotedStandsFor (errand_again e) details []) }
    {
        let NotedClient { client, notes } = self;
        let client = client.again(alloc)?;
        let notes = notes_for(alloc, &client, notes.is_some())?;
        Ok(NotedClient { client, notes })
    }

    /// What is printed of a client that knows nothing, where it keeps notes.
    pub fn open_text(&self, alloc: Global) -> Result<Option<Text>, Memory>
        ensures { (e : AnyErrand) (details : Bool) (inputs : List ClientInput) →
            NotedStandsFor e details inputs self.now →
            IfOk result (λ text. text ≡ lines_if details e inputs) }
    {
        match &self.notes {
            Some(notes) => {
                let waits = self.client.waiting(alloc)?;
                let text = notes.open_text(alloc, self.client.config().f, &waits)?;
                Ok(Some(Text::from_string(text)))
            }
            None => Ok(None),
        }
    }
}
