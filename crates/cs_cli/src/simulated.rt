//! What is told of a simulation.
ghost use Rattle.std.specs.Prelude.{◌≡◌, ◌≤◌, string_bytes, IfOk, None};
ghost use Rattle.cs_gen.specs.declared.limits.TheConstants.{MOST_SIZE};
ghost use Rattle.cs_replay.specs.Answers.{refusal_answer};
ghost use Rattle.cs_sched.specs.Playable.{IsPlayable};
ghost use Rattle.cs_native.specs.Approval.{is_approved_with_rules};
ghost use Rattle.cs_cli.specs.Simulated.{asked_line, decided_lines, spent_lines, simulation_text, done_answer, answer_by, played_answer, simulate_answer};
ghost use Rattle.cs_cli.specs.Unforged.{InjectsNothing};
ghost use Rattle.cs_cli.specs.SimulatedReports.{ReportTells};

use crate::keys::repeated_key;
use cs_approve::{Book, BookError};
use cs_base::{Memory, NullSink};
use cs_gen::{generated_schedules_are_playable, schedule_of};
use cs_native::RuledBook;
use cs_replay::{Mode, ReplayError, Summary, replay};
use cs_sched::Schedule;
use cs_text::{Cause, Refusal, refusal_line};
use std::alloc::Global;

// A status, and the text that is printed with it.
#[derive(Drop)]
pub(crate) struct Report {
    pub(crate) status: u8,
    pub(crate) printed: String,
}

// What is told of the schedule of a number and a size.
pub(crate) fn report_on(alloc: Global, number: u64, size: u32) -> Result<Report, Memory>
    requires { size ≤ MOST_SIZE }
    ensures { IfOk result (ReportTells (simulate_answer number size)) }
{
    generated_schedules_are_playable();
    let schedule = schedule_of(alloc, number, size)?;
    match repeated_key(alloc, schedule.genesis.as_slice())? {
        Some(place) => refuse(alloc, 5 + u64::from(place), Cause::Key),
        None => report_on_played(alloc, number, size, &schedule),
    }
}

// What is told of a schedule that can be played.
fn report_on_played(
    alloc: Global,
    number: u64,
    size: u32,
    schedule: &Schedule,
) -> Result<Report, Memory>
    requires playable { IsPlayable schedule.now }
    requires unforged { InjectsNothing schedule.now }
    ensures { IfOk result
        (ReportTells (answer_by number size schedule.now None)) }
{
    match Book::new(alloc, schedule.contracts.as_slice()) {
        Ok(book) => {
            let ruled = RuledBook::new(book);
            report_by(alloc, number, size, schedule, &ruled)
        }
        Err(BookError::Memory) => Err(Memory),
        // The contracts of a schedule are accepted.
        Err(BookError::Refused(..)) => unreachable!(),
    }
}

// Plays a schedule by a book, and prints nothing of it.
fn report_by(
    alloc: Global,
    number: u64,
    size: u32,
    schedule: &Schedule,
    book: &RuledBook,
) -> Result<Report, Memory>
    requires playable { IsPlayable schedule.now }
    requires unforged { InjectsNothing schedule.now }
    ensures { IfOk result
        (ReportTells (played_answer (is_approved_with_rules book.now) number size schedule.now)) }
{
    let plain = Mode {
        traced: false,
        dumps: false,
    };
    match replay(alloc, schedule, book, plain, &mut NullSink) {
        Ok(summary) => tell(alloc, number, size, summary),
        Err(ReplayError::Limit(line)) => refuse(alloc, line, Cause::Limit),
        Err(ReplayError::Memory) => Err(Memory),
        // Nothing is injected.
        Err(ReplayError::Forged(_)) => unreachable!(),
        // This sink never fails.
        Err(ReplayError::WriteFault) => unreachable!(),
    }
}

// The line of a bad line of the schedule's text.
fn refuse(alloc: Global, line: u64, cause: Cause) -> Result<Report, Memory>
    ensures { IfOk result (ReportTells (refusal_answer (record { line = line; cause = cause }))) }
{
    let refusal = Refusal { line, cause };
    Ok(Report {
        status: refusal.status(),
        printed: refusal_line(alloc, refusal)?,
    })
}

// What is told where all was played.
fn tell(alloc: Global, number: u64, size: u32, summary: Summary) -> Result<Report, Memory>
    ensures { IfOk result (ReportTells (done_answer number size summary)) }
{
    Ok(Report {
        status: 0,
        printed: lines(alloc, number, size, summary)?,
    })
}

// The five lines of a simulation.
fn lines(alloc: Global, number: u64, size: u32, summary: Summary) -> Result<String, Memory>
    ensures { IfOk result (λ text. string_bytes text ≡ simulation_text number size summary) }
{
    let mut text = asked_line(alloc, number, size)?;
    let decided = decided_lines(alloc, summary.accepted, summary.aborted)?;
    let spent = spent_lines(alloc, summary.events, summary.sent)?;
    text.push_str(&decided)?;
    text.push_str(&spent)?;
    Ok(text)
}

fn asked_line(alloc: Global, number: u64, size: u32) -> Result<String, Memory>
    ensures { IfOk result (λ text. string_bytes text ≡ asked_line number size) }
{
    Ok(format!(in alloc; "simulated {number} {size}\n")?)
}

fn decided_lines(alloc: Global, accepted: u64, aborted: u64) -> Result<String, Memory>
    ensures { IfOk result (λ text. string_bytes text ≡ decided_lines accepted aborted) }
{
    Ok(format!(in alloc; "accepted {accepted}\naborted {aborted}\n")?)
}

fn spent_lines(alloc: Global, events: u64, sent: u64) -> Result<String, Memory>
    ensures { IfOk result (λ text. string_bytes text ≡ spent_lines events sent) }
{
    Ok(format!(in alloc; "events {events}\nsent {sent}\n")?)
}
