//! The schedule of a number and a size.
ghost use Rattle.std.specs.Prelude.{◌≡◌, ◌+◌, ◌<◌, ◌≤◌, ◌^◌, IfOk, OnOk};
ghost use Rattle.std.specs.List.{enumerate_from};
ghost use Rattle.cs_gen.specs.Draws.{state_after};
ghost use Rattle.cs_gen.specs.Schedules.{drawn_master, drawn_schedule};

use crate::coins::{coins, draw_worths};
use crate::draws::Draws;
use crate::limits::MOST_SIZE;
use crate::rounds::draw_events;
use crate::sessions::layout;
use cs_base::{Memory, Sequence, Writer};
use cs_sched::{Event, Schedule};
use cs_tx::{Digest, id_of_token};
use std::alloc::Global;

// The master: four states in a row.
fn draw_master(alloc: Global, draws: &mut Draws) -> Result<Digest, Memory>
    ensures master { IfOk result (λ master. master ≡ drawn_master draws.old.state) }
    ensures state { OnOk result (draws.new.state ≡ state_after draws.old.state 4) }
{
    let mut out = Writer::new(alloc);
    out.u64(draws.advance())?;
    out.u64(draws.advance())?;
    out.u64(draws.advance())?;
    out.u64(draws.advance())?;
    let mut master = [0; 32];
    master.copy_from_slice(&out.into_bytes());
    Ok(master)
}

// The events with the numbers of their lines, the first of which is this one.
fn numbered(alloc: Global, first: u64, events: Vec<Event>) -> Result<Sequence<(u64, Event)>, Memory>
    requires { first < 2 ^ 32 }
    ensures { IfOk result (λ lines. lines ≡ enumerate_from first events.items) }
{
    let mut lines = Vec::with_capacity(alloc, events.len())?;
    let mut line = first;
    for event in events {
        lines.push((line, event))?;
        line += 1;
    }
    Ok(Sequence::from_vec(lines))
}

/// The schedule of a number and a size, which are the coins and the rounds in which each of them is
/// split. The events are numbered by the lines of the schedule's own text.
pub fn schedule_of(alloc: Global, number: u64, size: u32) -> Result<Schedule, Memory>
    requires { size ≤ MOST_SIZE }
    ensures { IfOk result (λ schedule. schedule ≡ drawn_schedule number size) }
{
    let mut draws = Draws::new(number);
    let master = draw_master(alloc, &mut draws)?;
    let worths = draw_worths(alloc, &mut draws, size)?;
    let token = id_of_token();
    let genesis = coins(alloc, &token, &worths)?;
    let events = draw_events(alloc, &token, &mut draws, &worths)?;
    Ok(Schedule {
        config: layout(),
        master,
        liars: Sequence::new(alloc),
        contracts: Sequence::new(alloc),
        genesis,
        events: numbered(alloc, 6 + u64::from(size), events)?,
    })
}
