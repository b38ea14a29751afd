//! Site files.
ghost use Rattle.std.specs.Prelude.{◌≡◌, IfOk};
ghost use Rattle.std.specs.List.{AllByRecursion};
ghost use Rattle.toml.specs.View.{table_view};
ghost use Rattle.cs_tx_value.specs.Object.{ObjectFits};
ghost use Rattle.cs_config.specs.Reading.{FileGives};
ghost use Rattle.cs_config.specs.Site.{site_of_file, site_draft_of, site_within, config_within};

use crate::document::read_table;
use crate::error::{ConfigError, FileField};
use crate::fields::{each_at, one_at};
use crate::limits::{LEAST_BASE_PORT, MOST_BASE_PORT, MOST_CONTRACTS};
use crate::numbers::{few, within};
use cs_base::{Config, MOST_DUMMIES, MOST_GENESIS, MOST_LIARS, MOST_SHARDS, Sequence};
use cs_io::Text;
use cs_tx_value::Object;
use std::alloc::Global;
use toml::Table;

/// What all nodes and clients of a deployment share. Whether the contracts are accepted is told by
/// who makes their book, and whether two genesis objects have one key by who makes the tables.
#[derive(Drop)]
pub struct Site {
    pub config: Config,
    /// The port from which those of nodes and clients are counted.
    pub base_port: u16,
    /// The files that hold the contracts' texts.
    pub contracts: Sequence<Text>,
    pub genesis: Sequence<Object>,
}

// The fields of a site file, before their ranges are looked at.
#[derive(Drop)]
pub(crate) struct SiteDraft {
    pub(crate) shards: i64,
    pub(crate) faulty: i64,
    pub(crate) dummies: i64,
    pub(crate) base_port: i64,
    pub(crate) contracts: Sequence<Text>,
    pub(crate) genesis: Sequence<Object>,
}

/// What a site file says.
pub fn read_site(alloc: Global, bytes: &[u8]) -> Result<Site, ConfigError>
    ensures given { FileGives result (site_of_file bytes.now) }
    ensures fits { IfOk result (λ site. AllByRecursion ObjectFits site.genesis) }
{
    let table = read_table(alloc, bytes)?;
    let draft = site_draft(alloc, &table)?;
    site_within(draft)
}

fn site_draft(alloc: Global, table: &Table) -> Result<SiteDraft, ConfigError>
    ensures given { FileGives result (site_draft_of (table_view table.now)) }
    ensures fits { IfOk result (λ draft. AllByRecursion ObjectFits draft.genesis) }
{
    let shards = one_at(alloc, table, FileField::Shards)?;
    let faulty = one_at(alloc, table, FileField::Faulty)?;
    let dummies = one_at(alloc, table, FileField::Dummies)?;
    let base_port = one_at(alloc, table, FileField::BasePort)?;
    let contracts = each_at(alloc, table, FileField::Contracts)?;
    let genesis = each_at(alloc, table, FileField::Genesis)?;
    Ok(SiteDraft {
        shards,
        faulty,
        dummies,
        base_port,
        contracts,
        genesis,
    })
}

fn site_within(draft: SiteDraft) -> Result<Site, ConfigError>
    ensures given { result ≡ site_within draft }
    ensures same { IfOk result (λ site. site.genesis ≡ draft.genesis) }
{
    let config = config_within(draft.shards, draft.faulty, draft.dummies)?;
    let base_port = within(
        FileField::BasePort,
        draft.base_port,
        LEAST_BASE_PORT,
        MOST_BASE_PORT,
    )?;
    let contracts = few(FileField::Contracts, draft.contracts, MOST_CONTRACTS)?;
    let genesis = few(FileField::Genesis, draft.genesis, MOST_GENESIS)?;
    Ok(Site {
        config,
        base_port: base_port as u16,
        contracts,
        genesis,
    })
}

#[tactic(auto, using(crate::proofs::Configs::configured_within))]
fn config_within(shards: i64, faulty: i64, dummies: i64) -> Result<Config, ConfigError>
    ensures { result ≡ config_within shards faulty dummies }
{
    let shards = within(FileField::Shards, shards, 1, u64::from(MOST_SHARDS))?;
    let faulty = within(FileField::Faulty, faulty, 0, u64::from(MOST_LIARS))?;
    let dummies = within(FileField::Dummies, dummies, 0, u64::from(MOST_DUMMIES))?;
    match Config::new(shards as u16, faulty as u16, dummies as u16) {
        Ok(config) => Ok(config),
        Err(_) => unreachable!(),
    }
}
