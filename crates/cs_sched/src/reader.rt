//! Schedules, read of a text.
ghost use Rattle.std.specs.Prelude.{◌≡◌, ℕ, List, Err, IfOk};
ghost use Rattle.cs_base.specs.declared.limits.TheConstants.{MOST_SCHEDULE};
ghost use Rattle.cs_text.specs.FirstBad.{lines_within, IsFirstBad};
ghost use Rattle.cs_text.specs.Reading.{GivesText};
ghost use Rattle.cs_text.specs.declared.cause.Refusal.{Refusal};
ghost use Rattle.cs_sched.specs.Playable.{IsPlayable};
ghost use Rattle.cs_sched.specs.Text.{schedule_form, schedule_of};

use crate::Schedule;
use crate::draft::Draft;
use cs_base::MOST_SCHEDULE;
use cs_text::{TextError, parse_text};
use std::alloc::Global;

/// The schedule of a text of at most `MOST_SCHEDULE` bytes, or its first bad line. Of a longer text
/// the lines that end within that length are read first; where none of them is bad the refusal is
/// `Limit`, at the line in which the next byte stands.
#[tactic(auto, unfolding(crate::specs::Text::schedule_of))]
pub fn parse(alloc: Global, text: &[u8]) -> Result<Schedule, TextError>
    ensures given { GivesText result (schedule_of MOST_SCHEDULE text.now) }
    ensures playable { IfOk result IsPlayable }
{
    parse_text::<Draft>(alloc, MOST_SCHEDULE, text)
}

/// A refusal names the first bad line: each line before it is good.
pub fn refusals_name_the_first_bad_line()
    ensures { (limit : ℕ) (text : List ℕ) (refusal : Refusal) → schedule_of limit text ≡ Err refusal
        → IsFirstBad schedule_form (lines_within limit text) refusal }
{}
