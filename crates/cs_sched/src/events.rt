//! What each event's line says.
ghost use Rattle.cs_base.specs.Lines.{views};
ghost use Rattle.cs_text.specs.Reading.{GivesStep};
ghost use Rattle.cs_sched.specs.Events.{say_of, inject_of, say_said, inject_said, deliver_said, tick_said, drain_said, event_said};

use crate::naming::{read_honest, read_speaker};
use crate::{Event, Schedule};
use cs_base::{MOST_BODY, MOST_DATAGRAM};
use cs_text::{Cause, LineError, only_field, only_number, read_bytes_within, read_number_within};
use std::alloc::Global;

/// The greatest kind of a datagram.
const MOST_KIND: u64 = 255;

// The event that a line of this word says, behind these lines of the schedule.
pub(crate) fn read_event(
    alloc: Global,
    schedule: &Schedule,
    word: &[u8],
    fields: &[&[u8]],
) -> Result<Event, LineError>
    ensures { GivesStep result (event_said schedule.now word.now (views fields.now)) }
{
    if word == b"say".as_slice() {
        read_say(alloc, schedule, fields)
    } else if word == b"inject".as_slice() {
        read_inject(alloc, schedule, fields)
    } else if word == b"deliver".as_slice() {
        read_deliver(fields)
    } else if word == b"tick".as_slice() {
        read_tick(schedule, fields)
    } else if word == b"drain".as_slice() {
        read_drain(fields)
    } else {
        Err(LineError::Bad(Cause::Word))
    }
}

fn read_say(alloc: Global, schedule: &Schedule, fields: &[&[u8]]) -> Result<Event, LineError>
    ensures { GivesStep result (say_said schedule.now (views fields.now)) }
{
    match fields {
        [from, to, kind, body] => say(alloc, schedule, from, to, kind, body),
        _ => Err(LineError::Bad(Cause::Count)),
    }
}

fn say(
    alloc: Global,
    schedule: &Schedule,
    from: &[u8],
    to: &[u8],
    kind: &[u8],
    body: &[u8],
) -> Result<Event, LineError>
    ensures { GivesStep result (say_of schedule.now from.now to.now kind.now body.now) }
{
    let liars = schedule.liars.as_slice();
    let from = read_speaker(&schedule.config, liars, from)?;
    let to = read_honest(&schedule.config, liars, to)?;
    let kind = read_number_within(kind, MOST_KIND)? as u8;
    let body = read_bytes_within(alloc, body, MOST_BODY)?;
    Ok(Event::Say {
        from,
        to,
        kind,
        body,
    })
}

fn read_inject(alloc: Global, schedule: &Schedule, fields: &[&[u8]]) -> Result<Event, LineError>
    ensures { GivesStep result (inject_said schedule.now (views fields.now)) }
{
    match fields {
        [to, bytes] => inject(alloc, schedule, to, bytes),
        _ => Err(LineError::Bad(Cause::Count)),
    }
}

fn inject(alloc: Global, schedule: &Schedule, to: &[u8], bytes: &[u8]) -> Result<Event, LineError>
    ensures { GivesStep result (inject_of schedule.now to.now bytes.now) }
{
    let to = read_honest(&schedule.config, schedule.liars.as_slice(), to)?;
    let bytes = read_bytes_within(alloc, bytes, MOST_DATAGRAM)?;
    Ok(Event::Inject { to, bytes })
}

fn read_deliver(fields: &[&[u8]]) -> Result<Event, LineError>
    ensures { GivesStep result (deliver_said (views fields.now)) }
{
    let number = only_number(fields)?;
    Ok(Event::Deliver { number })
}

fn read_tick(schedule: &Schedule, fields: &[&[u8]]) -> Result<Event, LineError>
    ensures { GivesStep result (tick_said schedule.now (views fields.now)) }
{
    let field = only_field(fields)?;
    let node = read_honest(&schedule.config, schedule.liars.as_slice(), field)?;
    Ok(Event::Tick { node })
}

fn read_drain(fields: &[&[u8]]) -> Result<Event, LineError>
    ensures { GivesStep result (drain_said (views fields.now)) }
{
    let times = only_number(fields)?;
    Ok(Event::Drain { times })
}
