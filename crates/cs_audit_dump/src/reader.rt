//! Dumps, read of a text.
ghost use Rattle.std.specs.Prelude.{IfOk};
ghost use Rattle.cs_text.specs.Reading.{GivesText};
ghost use Rattle.cs_audit_dump.specs.Formed.{IsFormed};
ghost use Rattle.cs_audit_dump.specs.Text.{dump_of};
ghost use Rattle.cs_audit_dump.specs.declared.limits.TheConstants.{MOST_DUMP};

use crate::draft::Draft;
use crate::dump::Dump;
use crate::limits::MOST_DUMP;
use cs_text::{TextError, parse_text};
use std::alloc::Global;

/// The dump of a text of at most `MOST_DUMP` bytes, or its first bad line. Lines before the line
/// `dump` are passed over. Of a longer text the lines that end within that length are read first;
/// where none of them is bad the refusal is `Limit`, at the line in which the next byte stands.
#[tactic(auto, unfolding(crate::specs::Text::dump_of))]
pub fn parse_dump(alloc: Global, text: &[u8]) -> Result<Dump, TextError>
    ensures given { GivesText result (dump_of MOST_DUMP text.now) }
    ensures formed { IfOk result IsFormed }
{
    parse_text::<Draft>(alloc, MOST_DUMP, text)
}
