//! A schedule replayed.
ghost use Rattle.std.specs.Prelude.{◌≡◌, ℕ, List, Option, length, string_bytes, IfOk, IfErr, IsErrOf};
ghost use Rattle.std.specs.List.{All};
ghost use Rattle.cs_base.specs.Answers.{Answers};
ghost use Rattle.cs_base.specs.Outside.{HasCause};
ghost use Rattle.cs_tx_value.specs.Object.{ObjectFits};
ghost use Rattle.cs_order_rules.specs.SlotMachine.{slot_machine};
ghost use Rattle.cs_replay_rules.specs.Play.{unplayed, play_all, size_of};
ghost use Rattle.cs_node_wire.specs.SlotCarried.{slot_carrier};
ghost use Rattle.cs_sched.specs.Playable.{IsPlayable};
ghost use Rattle.cs_replay_play.specs.Standing.{Setting, site_in, Stands, AllShort, AllToOthers};
ghost use Rattle.cs_replay.specs.Settled.{IsSetupOf};
ghost use Rattle.cs_replay.specs.Settings.{setting_of};
ghost use Rattle.cs_replay.specs.Played.{course_of, world_of, history_of, aborted_of, sent_of};
ghost use Rattle.cs_replay_play.specs.Ends.{WhereStands};
ghost use Rattle.cs_replay.specs.Answers.{dump_if, schedule_answer, replay_status, EndsAs};
ghost use Rattle.cs_replay.specs.Closing.{sums_of, EndsWith, IsLast, IsCutShort, Closes};

use crate::dump_text;
use crate::outcome::{ReplayError, Summary};
use crate::starting::start_nodes;
use cs_base::{Memory, Sink, WriteError, print};
use cs_log::SlotOrder;
use cs_node::Carried;
use cs_order::Order;
use cs_replay_play::{
    Halt, History, Post, Replay, Voices, forged_line, history_text, limit_line, start_logs,
};
use cs_sched::Schedule;
use cs_tx::Judge;
use std::alloc::Global;

/// What a replay prints.
#[derive(Clone, Copy, Debug, PartialEq, Eq)]
pub struct Mode {
    /// Each event and each datagram too, and not the executions alone.
    pub traced: bool,
    /// Behind the history a dump, for an auditor.
    pub dumps: bool,
}

/// Plays the events of a schedule at nodes that ask this judge, and prints what they do and then
/// the history, and a dump where one is wanted, or the line of the event that would have passed a
/// limit or injects what is forged.
pub fn replay<J: Judge, K: Sink>(
    alloc: Global,
    schedule: &Schedule,
    judge: &J,
    mode: Mode,
    output: &mut K,
) -> Result<Summary, ReplayError>
    requires { IsPlayable schedule.now }

    // The schedule's lines are printed, or a front of them where the sink fails or memory runs out.
    ensures answers { Answers (schedule_answer (J.is_approved judge.now) mode schedule.now)
        (K.written output.old) (K.written output.new) (replay_status result) }

    // All events were played, or those before the line that is answered.
    ensures ends { EndsAs (course_of (J.is_approved judge.now) mode.traced schedule.now) result }

    ensures accepted { IfOk result (λ summary. summary.accepted
        ≡ length (history_of (J.is_approved judge.now) mode.traced schedule.now)) }
    ensures aborted { IfOk result (λ summary. summary.aborted
        ≡ length (aborted_of (J.is_approved judge.now) mode.traced schedule.now)) }
    ensures events { IfOk result (λ summary. summary.events
        ≡ length (world_of (J.is_approved judge.now) mode.traced schedule.now)) }
    ensures sent { IfOk result (λ summary. summary.sent
        ≡ size_of (sent_of (J.is_approved judge.now) mode.traced schedule.now)) }

    ensures cause { HasCause (K.faults output.old) (K.faults output.new)
        (IsErrOf result ReplayError.WriteFault) }
{
    match begin(alloc, schedule, judge, mode) {
        Ok(replay) => play_schedule(alloc, replay, schedule, mode.dumps, output),
        Err(_) => Err(ReplayError::Memory),
    }
}

// A replay before the first event.
fn begin<J: Judge + Copy + Drop>(
    alloc: Global,
    schedule: &Schedule,
    judge: J,
    mode: Mode,
) -> Result<Replay<SlotOrder, J>, Memory>
    requires { IsPlayable schedule.now }
    ensures { (before : Option (List ℕ)) → IfOk result (λ replay.
        Stands ⟦<SlotOrder as Order>⟧.stands J.is_approved slot_machine slot_carrier
        (setting_of (J.is_approved judge) mode.traced schedule.now before) replay unplayed) }
{
    let cores = start_nodes(alloc, schedule, judge)?;
    let logs = start_logs(alloc, cores.len())?;
    let history = History::new(alloc, schedule.config)?;
    let post = Post::new(alloc);
    let voices = Voices::new(alloc, schedule.config, schedule.master);
    Ok(Replay {
        cores,
        logs,
        history,
        post,
        voices,
        events: 0,
        traced: mode.traced,
    })
}

// Plays the events of a schedule, and prints their lines and what stands behind them.
fn play_schedule<O: Carried, J: Judge + Drop, K: Sink>(
    alloc: Global,
    mut replay: Replay<O, J>,
    schedule: &Schedule,
    dumps: bool,
    output: &mut K,
) -> Result<Summary, ReplayError>
    requires short { AllShort schedule.now.events }
    requires objects { All ObjectFits schedule.now.genesis }
    ensures closes { (s : Setting) → s.before ≡ K.written output.old
        → Stands O.stands J.is_approved O.rules O.carrier s replay unplayed
        → IsSetupOf schedule.now s.setup → AllToOthers s schedule.now.events
        → Closes s.before (K.written output.new) (site_in O.rules O.carrier s)
        dumps schedule.now.contracts
        (play_all (site_in O.rules O.carrier s) s.traced schedule.now.events unplayed) result }
    ensures cause { HasCause (K.faults output.old) (K.faults output.new)
        (IsErrOf result ReplayError.WriteFault) }
{
    let played = replay.play_all(alloc, schedule.events.as_slice(), output);
    let last = last_lines(alloc, &replay, schedule, dumps, played)?;
    match print(output, last.text.as_bytes()) {
        Ok(()) => last.answer,
        Err(WriteError::Failed) => Err(ReplayError::WriteFault),
        Err(WriteError::Memory) => Err(ReplayError::Memory),
    }
}

// What is printed behind the lines of the events, and what is answered then.
#[derive(Drop)]
struct Last {
    text: String,
    answer: Result<Summary, ReplayError>,
}

// By how the events ended: the history, and the dump where it is wanted, or the line of the event
// that was refused.
fn last_lines<O: Carried, J: Judge + Drop>(
    alloc: Global,
    replay: &Replay<O, J>,
    schedule: &Schedule,
    dumps: bool,
    played: Result<(), Halt>,
) -> Result<Last, ReplayError>
    requires { All ObjectFits schedule.now.genesis }
    ensures last { IfOk result (λ last.
        IsLast O.stands J.is_approved O.rules O.carrier replay.now schedule.now dumps
        played (string_bytes last.text) last.answer) }
    ensures answer { IfOk result (λ last. IsErrOf last.answer ReplayError.WriteFault → ⊥) }
    ensures cut { IfErr result IsCutShort }
    ensures failed { IsErrOf result ReplayError.WriteFault → IsErrOf played Halt.Failed }
{
    match played {
        Ok(()) => Ok(Last {
            text: end_text(alloc, replay, schedule, dumps)?,
            answer: Ok(summary_of(replay)),
        }),
        Err(Halt::Limit(line)) => Ok(Last {
            text: limit_line(alloc, line)?,
            answer: Err(ReplayError::Limit(line)),
        }),
        Err(Halt::Forged(line)) => Ok(Last {
            text: forged_line(alloc, line)?,
            answer: Err(ReplayError::Forged(line)),
        }),
        Err(Halt::Failed) => Err(ReplayError::WriteFault),
        Err(Halt::Memory) => Err(ReplayError::Memory),
    }
}

// The history, and where it is wanted the dump.
fn end_text<O: Carried, J: Judge + Drop>(
    alloc: Global,
    replay: &Replay<O, J>,
    schedule: &Schedule,
    dumps: bool,
) -> Result<String, Memory>
    requires { All ObjectFits schedule.now.genesis }
    ensures { IfOk result (λ text. EndsWith O.stands J.is_approved O.rules O.carrier
        replay.now schedule.now dumps (string_bytes text)) }
{
    let mut text = history_text(alloc, replay.history.told())?;
    let dump = dump_if(alloc, replay, schedule, dumps)?;
    text.push_str(&dump)?;
    Ok(text)
}

// The dump, where it is wanted.
fn dump_if<O: Carried, J: Judge + Drop>(
    alloc: Global,
    replay: &Replay<O, J>,
    schedule: &Schedule,
    dumps: bool,
) -> Result<String, Memory>
    requires { All ObjectFits schedule.now.genesis }
    ensures { WhereStands O.stands J.is_approved O.rules O.carrier replay.now (λ s p.
        IsSetupOf schedule.now s.setup → IfOk result (λ text. string_bytes text
        ≡ dump_if dumps (site_in O.rules O.carrier s) schedule.now.contracts p.world)) }
{
    if dumps {
        dump_text(alloc, replay, schedule)
    } else {
        Ok(String::new(alloc))
    }
}

// The numbers of what was played.
fn summary_of<O: Carried, J: Judge + Drop>(replay: &Replay<O, J>) -> Summary
    ensures { result ≡ sums_of replay.now }
{
    Summary {
        accepted: replay.history.told().len() as u64,
        aborted: replay.history.aborted().len() as u64,
        events: replay.events,
        sent: replay.post.size(),
    }
}
