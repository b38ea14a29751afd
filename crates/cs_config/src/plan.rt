//! Plan files.
ghost use Rattle.std.specs.Prelude.{◌≡◌};
ghost use Rattle.toml.specs.View.{table_view};
ghost use Rattle.cs_config.specs.Reading.{FileGives};
ghost use Rattle.cs_config.specs.Plan.{plan_of, plan_draft_of, plan_within};

use crate::document::read_table;
use crate::error::{ConfigError, FileField};
use crate::fields::{each_at, one_at};
use crate::limits::{MOST_CALLS, MOST_TURNS};
use crate::numbers::{few, within};
use cs_base::Sequence;
use cs_io::Text;
use cs_tx_value::Digest;
use std::alloc::Global;
use toml::Table;

/// What a cluster runs.
#[derive(Drop)]
pub struct Plan {
    /// The site file.
    pub site: Text,
    pub master: Digest,
    /// How many turns each node and client takes.
    pub turns: u64,
    /// The call files, which are run one after the other.
    pub calls: Sequence<Text>,
}

// The fields of a plan file, before their ranges are looked at.
#[derive(Drop)]
pub(crate) struct PlanDraft {
    pub(crate) site: Text,
    pub(crate) master: Digest,
    pub(crate) turns: i64,
    pub(crate) calls: Sequence<Text>,
}

/// What a plan file says.
pub fn read_plan(alloc: Global, bytes: &[u8]) -> Result<Plan, ConfigError>
    ensures { FileGives result (plan_of bytes.now) }
{
    let table = read_table(alloc, bytes)?;
    let draft = plan_draft(alloc, &table)?;
    plan_within(draft)
}

fn plan_draft(alloc: Global, table: &Table) -> Result<PlanDraft, ConfigError>
    ensures { FileGives result (plan_draft_of (table_view table.now)) }
{
    let site = one_at(alloc, table, FileField::Site)?;
    let master = one_at(alloc, table, FileField::Master)?;
    let turns = one_at(alloc, table, FileField::Turns)?;
    let calls = each_at(alloc, table, FileField::Calls)?;
    Ok(PlanDraft {
        site,
        master,
        turns,
        calls,
    })
}

fn plan_within(draft: PlanDraft) -> Result<Plan, ConfigError>
    ensures { result ≡ plan_within draft }
{
    let master = draft.master;
    let turns = within(FileField::Turns, draft.turns, 1, MOST_TURNS)?;
    let calls = few(FileField::Calls, draft.calls, MOST_CALLS)?;
    Ok(Plan {
        site: draft.site,
        master,
        turns,
        calls,
    })
}
