//! Running a client whose call is made again after it was aborted.
ghost use Rattle.std.specs.Prelude.{◌≡◌, ◌≢◌, ◌+◌, ◌-◌, ◌≤◌, true, List, [], length, Err, IfOk, OnOk, OnErr, IsErrOf, is_none, ◌&&◌, string_bytes};
ghost use Rattle.std.specs.Option.{option_map_or};
ghost use Rattle.std.specs.Io.KnownBytes.{Appends};
ghost use Rattle.cs_base.specs.Answers.{AppendsFront};
ghost use Rattle.cs_base.specs.Outside.{HasCause};
ghost use Rattle.cs_base.specs.declared.limits.TheConstants.{MOST_DATAGRAM};
ghost use Rattle.cs_io.specs.Told.{Stays};
ghost use Rattle.cs_io.specs.Outside.{beside};
ghost use Rattle.cs_client.specs.declared.errand.Errand.{Errand};
ghost use Rattle.cs_client.specs.Lines.{known_line};
ghost use Rattle.cs_client.specs.Inputs.{ClientInput, client_input};
ghost use Rattle.cs_client.specs.Knowing.{knows};
ghost use Rattle.cs_client.specs.Standing.{errand_again, ClientStandsFor};
ghost use Rattle.cs_client.specs.Phases.{submitted};
ghost use Rattle.cs_details.specs.Lines.{tx_lines};
ghost use Rattle.cs_waits.specs.Standing.{NotedStandsFor};
ghost use Rattle.cs_tries.specs.Tries.{Try, try_begun, may_follow, phase_in_try, known_in_try, then_next, announcement, lines_accepted, line_between};
ghost use Rattle.cs_serve.specs.Offering.{offers_in};
ghost use Rattle.cs_tries.specs.Trying.{AttendsTries, TryTakesTurn, TryGoesBy, GoesBehind, PrintsBehind, GivenBy, EndsOpen, unwritten};

use crate::ending::TryEnding;
use cs_base::{MOST_DATAGRAM, Memory, Sequence, Sink, WriteError, print};
use cs_client::{ClientCore, ClientError, Input, Known, Out, known_line};
use cs_details::{session_line, tx_lines};
use cs_io::{Arrived, Link, Until};
use cs_serve::{Ending, offer, receive};
use cs_tx_value::Digest;
use cs_waits::NotedClient;
use std::alloc::Global;

/// Gives a client the inputs of the link for so long, and offers what it says. Where it knows that
/// its session is aborted, and another try may be made, the line of that is printed, and the call
/// is made again under the next number; so many tries are made at most. With details it prints each
/// session before it is submitted, and of one that is accepted the transaction; and it tells what
/// it waits for where it knows nothing in the end. It ends as the last try does, or where a line
/// can't be printed.
pub fn attend_tries<L: Link, K: Sink>(
    alloc: Global,
    client: ClientCore,
    details: bool,
    tries: u64,
    link: &mut L,
    out: &mut K,
    until: Until,
) -> TryEnding
    ensures attends { (e : Errand) → ClientStandsFor e [] client → knows e [] ≡ Known.Open
        → AttendsTries (try_begun details e tries) until
        (beside (L.told link.old) (K.written out.old))
        (beside (L.told link.new) (K.written out.new)) result }
    ensures bound { Stays (L.told link.old).bound (L.told link.new).bound }
    ensures placed { Stays (L.told link.old).placed (L.told link.new).placed }
    ensures link { HasCause (L.faults link.old) (L.faults link.new)
        (result ≡ TryEnding.Ended Ending.LinkFault) }
    ensures sink { HasCause (K.faults out.old) (K.faults out.new) (result ≡ TryEnding.WriteFault) }
{
    match NotedClient::start(alloc, client, details) {
        Ok(noted) => attend_noted(alloc, noted, details, tries, link, out, until),
        Err(_) => TryEnding::Ended(Ending::Memory),
    }
}

// The same of a client that keeps notes, where details are to be told.
fn attend_noted<L: Link, K: Sink>(
    alloc: Global,
    noted: NotedClient,
    details: bool,
    tries: u64,
    link: &mut L,
    out: &mut K,
    until: Until,
) -> TryEnding
    ensures attends { (e : Errand) → NotedStandsFor e details [] noted → knows e [] ≡ Known.Open
        → AttendsTries (try_begun details e tries) until
        (beside (L.told link.old) (K.written out.old))
        (beside (L.told link.new) (K.written out.new)) result }
    ensures bound { Stays (L.told link.old).bound (L.told link.new).bound }
    ensures placed { Stays (L.told link.old).placed (L.told link.new).placed }
    ensures link { HasCause (L.faults link.old) (L.faults link.new)
        (result ≡ TryEnding.Ended Ending.LinkFault) }
    ensures sink { HasCause (K.faults out.old) (K.faults out.new) (result ≡ TryEnding.WriteFault) }
{
    let Ok(mut room) = vec![in alloc; 0u8; MOST_DATAGRAM + 1] else {
        return TryEnding::Ended(Ending::Memory);
    };
    let buf = room.as_mut_slice();
    let mut noted = noted;
    let mut tries = tries;
    let mut turns = 0;
    let mut ticks = 0;
    while !until.is_over(turns, ticks) {
        match take_turn(alloc, noted, details, tries, link, out, buf) {
            Ok((next, left, ticked)) => {
                noted = next;
                tries = left;
                turns += 1;
                ticks += u64::from(ticked);
            }
            Err(ending) => return ending,
        }
    }
    ending_of(alloc, &noted)
}

// How a run ends that knows nothing in the end: with what it waits for, where that is to be told.
fn ending_of(alloc: Global, noted: &NotedClient) -> TryEnding
    ensures ends { (t : Try) → NotedStandsFor t.errand t.details t.inputs noted.now →
        EndsOpen t result }
    ensures link { result ≢ TryEnding.Ended Ending.LinkFault }
    ensures sink { result ≢ TryEnding.WriteFault }
{
    match noted.open_text(alloc) {
        Ok(Some(text)) => TryEnding::Waits(text),
        Ok(None) => TryEnding::Ended(Ending::Knows(Known::Open)),
        Err(_) => TryEnding::Ended(Ending::Memory),
    }
}

// Takes an input and answers it: the client that goes on, with how many tries may be made and with
// whether the input was a tick, or how its run ends.
fn take_turn<L: Link, K: Sink>(
    alloc: Global,
    noted: NotedClient,
    details: bool,
    tries: u64,
    link: &mut L,
    out: &mut K,
    buf: &mut [u8],
) -> Result<(NotedClient, u64, bool), TryEnding>
    requires { length buf.old ≡ MOST_DATAGRAM + 1 }
    ensures goes { (t : Try) → NotedStandsFor t.errand t.details t.inputs noted →
        details ≡ t.details → tries ≡ t.tries →
        TryTakesTurn t (beside (L.told link.old) (K.written out.old))
        (beside (L.told link.new) (K.written out.new)) result }
    ensures bound { Stays (L.told link.old).bound (L.told link.new).bound }
    ensures placed { Stays (L.told link.old).placed (L.told link.new).placed }
    ensures link { HasCause (L.faults link.old) (L.faults link.new)
        (IsErrOf result (TryEnding.Ended Ending.LinkFault)) }
    ensures sink { HasCause (K.faults out.old) (K.faults out.new)
        (IsErrOf result TryEnding.WriteFault) }
{
    match receive(link, buf) {
        Arrived::Datagram(count) => {
            let (bytes, _) = buf.split_at(count);
            let input = Input::Datagram(bytes);
            let (noted, tries) = answer(alloc, noted, details, tries, input, link, out)?;
            Ok((noted, tries, false))
        }
        Arrived::Tick => {
            let (noted, tries) = answer(alloc, noted, details, tries, Input::Tick, link, out)?;
            Ok((noted, tries, true))
        }
        Arrived::End => Err(ending_of(alloc, &noted)),
        Arrived::Failed => Err(TryEnding::Ended(Ending::LinkFault)),
    }
}

// Gives the client an input, offers what it says of it, and goes on with the next try where one
// follows.
fn answer<L: Link, K: Sink>(
    alloc: Global,
    noted: NotedClient,
    details: bool,
    tries: u64,
    input: Input<'_>,
    link: &mut L,
    out: &mut K,
) -> Result<(NotedClient, u64), TryEnding>
    ensures goes { (t : Try) → NotedStandsFor t.errand t.details t.inputs noted →
        details ≡ t.details → tries ≡ t.tries →
        TryGoesBy t (client_input input.entry) (beside (L.told link.old) (K.written out.old))
        (beside (L.told link.new) (K.written out.new)) result }
    ensures only { IsErrOf result (TryEnding.Ended Ending.LinkFault) → ⊥ }
    ensures left { Stays (L.told link.old).left (L.told link.new).left }
    ensures bound { Stays (L.told link.old).bound (L.told link.new).bound }
    ensures placed { Stays (L.told link.old).placed (L.told link.new).placed }
    ensures missed { (L.told link.new).missed ≡ (L.told link.old).missed }
    ensures link { L.faults link.old ≤ L.faults link.new }
    ensures sink { HasCause (K.faults out.old) (K.faults out.new)
        (IsErrOf result TryEnding.WriteFault) }
{
    let announcing = is_announcing(details, noted.client());
    match noted.step(alloc, input) {
        Ok((noted, outs)) => say(alloc, noted, details, tries, announcing, outs, link, out),
        Err(ClientError::Refused(cause)) => Err(TryEnding::Ended(Ending::Refused(cause))),
        Err(ClientError::Memory) => Err(TryEnding::Ended(Ending::Memory)),
    }
}

// Whether a session that is submitted from now on is to be announced.
fn is_announcing(details: bool, client: &ClientCore) -> bool
    ensures { (t : Try) → ClientStandsFor t.errand t.inputs client.now →
        result ≡ (details && is_none (submitted (phase_in_try t))) }
{
    details && client.session().is_none()
}

// Announces the session that is submitted, where it is to; offers what the client says, and asks it
// what it knows.
fn say<L: Link, K: Sink>(
    alloc: Global,
    noted: NotedClient,
    details: bool,
    tries: u64,
    announcing: bool,
    outs: Sequence<Out>,
    link: &mut L,
    out: &mut K,
) -> Result<(NotedClient, u64), TryEnding>
    ensures goes { (t : Try) → NotedStandsFor t.errand t.details t.inputs noted →
        details ≡ t.details → tries ≡ t.tries →
        GoesBehind (then_next (known_in_try t) t) result }
    ensures given { (t : Try) → NotedStandsFor t.errand t.details t.inputs noted →
        details ≡ t.details → tries ≡ t.tries →
        GivenBy (offers_in outs) (announcement announcing (phase_in_try t))
        (line_between (known_in_try t) t)
        (beside (L.told link.old) (K.written out.old))
        (beside (L.told link.new) (K.written out.new)) result }
    ensures only { IsErrOf result (TryEnding.Ended Ending.LinkFault) → ⊥ }
    ensures left { Stays (L.told link.old).left (L.told link.new).left }
    ensures bound { Stays (L.told link.old).bound (L.told link.new).bound }
    ensures placed { Stays (L.told link.old).placed (L.told link.new).placed }
    ensures missed { (L.told link.new).missed ≡ (L.told link.old).missed }
    ensures link { L.faults link.old ≤ L.faults link.new }
    ensures sink { HasCause (K.faults out.old) (K.faults out.new)
        (IsErrOf result TryEnding.WriteFault) }
{
    if let Err(error) = announce(alloc, noted.client(), announcing, out) {
        return Err(unwritten(error));
    }
    let Ok(()) = offer(link, outs.as_slice()) else {
        return Err(TryEnding::Ended(Ending::Memory));
    };
    go_on(alloc, noted, details, tries, out)
}

// How a run ends where a text isn't written.
fn unwritten(error: WriteError) -> TryEnding
    ensures { result ≡ unwritten error }
{
    match error {
        WriteError::Failed => TryEnding::WriteFault,
        WriteError::Memory => TryEnding::Ended(Ending::Memory),
    }
}

// Prints the line of the session that is submitted, where it is to be announced.
fn announce<K: Sink>(
    alloc: Global,
    client: &ClientCore,
    announcing: bool,
    out: &mut K,
) -> Result<(), WriteError>
    ensures done { (t : Try) → ClientStandsFor t.errand t.inputs client.now → OnOk result
        (Appends (K.written out.old) (K.written out.new)
        (announcement announcing (phase_in_try t))) }
    ensures part { (t : Try) → ClientStandsFor t.errand t.inputs client.now → OnErr result
        (AppendsFront (K.written out.old) (K.written out.new)
        (announcement announcing (phase_in_try t))) }
    ensures cause { HasCause (K.faults out.old) (K.faults out.new)
        (IsErrOf result WriteError.Failed) }
{
    if !announcing {
        return Ok(());
    }
    let Some(session) = client.session() else {
        return Ok(());
    };
    let Ok(line) = session_line(alloc, session) else {
        return Err(WriteError::Memory);
    };
    print(out, line.as_bytes())
}

// The lines of the transaction of the session that is submitted.
fn lines_of(alloc: Global, client: &ClientCore) -> Result<String, Memory>
    ensures { (t : Try) → ClientStandsFor t.errand t.inputs client.now →
        IfOk result (λ lines. string_bytes lines
        ≡ option_map_or (λ x. tx_lines t.errand.config x.tx) (submitted (phase_in_try t)) []) }
{
    match client.session() {
        Some(session) => tx_lines(alloc, client.config(), &session.tx),
        None => Ok(String::new(alloc)),
    }
}

// That a session is accepted, with the lines of its transaction.
fn accepted_text(alloc: Global, client: &ClientCore, digest: Digest) -> Result<String, Memory>
    ensures { (t : Try) → ClientStandsFor t.errand t.inputs client.now → t.details ≡ true →
        IfOk result (λ text. string_bytes text ≡ lines_accepted digest t) }
{
    let mut text = known_line(alloc, Known::Accepted(digest))?;
    let lines = lines_of(alloc, client)?;
    text.push_str(&lines)?;
    Ok(text)
}

// Prints that a session is accepted, with the lines of its transaction.
fn tell_accepted<K: Sink>(
    alloc: Global,
    client: &ClientCore,
    digest: Digest,
    out: &mut K,
) -> TryEnding
    ensures goes { (t : Try) → ClientStandsFor t.errand t.inputs client.now →
        known_in_try t ≡ Known.Accepted digest →
        GoesBehind (then_next (Known.Accepted digest) t) (Err result) }
    ensures printed { (t : Try) → ClientStandsFor t.errand t.inputs client.now → t.details ≡ true →
        PrintsBehind (line_between (Known.Accepted digest) t)
        (K.written out.old) (K.written out.new) (Err result) }
    ensures only { result ≢ TryEnding.Ended Ending.LinkFault }
    ensures sink { HasCause (K.faults out.old) (K.faults out.new) (result ≡ TryEnding.WriteFault) }
{
    let Ok(text) = accepted_text(alloc, client, digest) else {
        return TryEnding::Ended(Ending::Memory);
    };
    match print(out, text.as_bytes()) {
        Ok(()) => TryEnding::Told(digest),
        Err(error) => unwritten(error),
    }
}

// How a run ends whose session is accepted, of which the details are printed.
fn end_accepted<K: Sink>(
    alloc: Global,
    client: &ClientCore,
    details: bool,
    digest: Digest,
    out: &mut K,
) -> TryEnding
    ensures goes { (t : Try) → ClientStandsFor t.errand t.inputs client.now →
        known_in_try t ≡ Known.Accepted digest →
        GoesBehind (then_next (Known.Accepted digest) t) (Err result) }
    ensures printed { (t : Try) → ClientStandsFor t.errand t.inputs client.now → details ≡ t.details →
        PrintsBehind (line_between (Known.Accepted digest) t)
        (K.written out.old) (K.written out.new) (Err result) }
    ensures only { result ≢ TryEnding.Ended Ending.LinkFault }
    ensures sink { HasCause (K.faults out.old) (K.faults out.new) (result ≡ TryEnding.WriteFault) }
{
    if details {
        tell_accepted(alloc, client, digest, out)
    } else {
        TryEnding::Ended(Ending::Knows(Known::Accepted(digest)))
    }
}

// Whether another try may follow.
fn may_follow(tries: u64, number: u64) -> bool
    ensures { result ≡ may_follow tries number }
{
    1 < tries && number < u64::MAX
}

// Goes on with the client while it knows nothing, and with the next try where it is aborted and one
// follows; else tells what it knows.
fn go_on<K: Sink>(
    alloc: Global,
    noted: NotedClient,
    details: bool,
    tries: u64,
    out: &mut K,
) -> Result<(NotedClient, u64), TryEnding>
    ensures goes { (t : Try) → NotedStandsFor t.errand t.details t.inputs noted →
        details ≡ t.details → tries ≡ t.tries →
        GoesBehind (then_next (known_in_try t) t) result }
    ensures printed { (t : Try) → NotedStandsFor t.errand t.details t.inputs noted →
        details ≡ t.details → tries ≡ t.tries →
        PrintsBehind (line_between (known_in_try t) t)
        (K.written out.old) (K.written out.new) result }
    ensures only { IsErrOf result (TryEnding.Ended Ending.LinkFault) → ⊥ }
    ensures sink { HasCause (K.faults out.old) (K.faults out.new)
        (IsErrOf result TryEnding.WriteFault) }
{
    match noted.client().known() {
        Known::Open => Ok((noted, tries)),
        Known::Accepted(digest) => {
            Err(end_accepted(alloc, noted.client(), details, digest, out))
        }
        Known::Aborted(digest) => try_next(alloc, noted, details, tries, digest, out),
    }
}

// Goes on with the next try behind one that is aborted, where one follows.
fn try_next<K: Sink>(
    alloc: Global,
    noted: NotedClient,
    details: bool,
    tries: u64,
    digest: Digest,
    out: &mut K,
) -> Result<(NotedClient, u64), TryEnding>
    ensures goes { (t : Try) → NotedStandsFor t.errand t.details t.inputs noted →
        details ≡ t.details → tries ≡ t.tries →
        known_in_try t ≡ Known.Aborted digest →
        GoesBehind (then_next (Known.Aborted digest) t) result }
    ensures printed { (t : Try) → NotedStandsFor t.errand t.details t.inputs noted →
        details ≡ t.details → tries ≡ t.tries →
        PrintsBehind (line_between (Known.Aborted digest) t)
        (K.written out.old) (K.written out.new) result }
    ensures only { IsErrOf result (TryEnding.Ended Ending.LinkFault) → ⊥ }
    ensures sink { HasCause (K.faults out.old) (K.faults out.new)
        (IsErrOf result TryEnding.WriteFault) }
{
    if may_follow(tries, noted.client().number()) {
        try_again(alloc, noted, details, tries, Known::Aborted(digest), out)
    } else {
        Err(TryEnding::Ended(Ending::Knows(Known::Aborted(digest))))
    }
}

// Prints what is known of a try, and begins the next one.
fn try_again<K: Sink>(
    alloc: Global,
    noted: NotedClient,
    details: bool,
    tries: u64,
    known: Known,
    out: &mut K,
) -> Result<(NotedClient, u64), TryEnding>
    requires { may_follow tries noted.client.errand.call.number ≡ true }
    ensures goes { (t : Try) → NotedStandsFor t.errand t.details t.inputs noted →
        details ≡ t.details → tries ≡ t.tries →
        GoesBehind (try_begun t.details (errand_again t.errand) (t.tries - 1)) result }
    ensures printed { PrintsBehind (known_line known)
        (K.written out.old) (K.written out.new) result }
    ensures only { IsErrOf result (TryEnding.Ended Ending.LinkFault) → ⊥ }
    ensures sink { HasCause (K.faults out.old) (K.faults out.new)
        (IsErrOf result TryEnding.WriteFault) }
{
    let Ok(line) = known_line(alloc, known) else {
        return Err(TryEnding::Ended(Ending::Memory));
    };
    match print(out, line.as_bytes()) {
        Ok(()) => match noted.again(alloc) {
            Ok(noted) => Ok((noted, tries - 1)),
            Err(_) => Err(TryEnding::Ended(Ending::Memory)),
        },
        Err(error) => Err(unwritten(error)),
    }
}
