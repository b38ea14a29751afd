//! The files of a deployment, in TOML: the site, a client's call, the plan of a cluster and where
//! the hosts are; and
//! the key files: whose there are, by what name, the keys shared with each peer, and the saving
//! of all of them.
#![tactic(auto)]

mod args;
mod call;
mod complete;
mod document;
mod error;
mod fields;
mod given;
mod hex_values;
mod host;
mod hosts;
mod limits;
mod listing;
mod naming;
mod numbers;
mod peer;
mod plan;
mod printing;
mod readable;
mod reading;
mod saving;
mod site;

pub use call::{CallFile, read_call};
pub use document::read_table;
pub use error::{ConfigError, FileField};
pub use fields::{each_at, held_under, one_at};
pub use given::decode_transaction;
pub use host::addresses_are_read;
pub use hosts::{Hosts, read_hosts};
pub use limits::{
    LAST_NUMBER, LEAST_BASE_PORT, LEAST_TICK, MOST_BASE_PORT, MOST_CALLS, MOST_CONTRACTS,
    MOST_TICK, MOST_TURNS,
};
pub use naming::key_file;
pub use plan::{Plan, read_plan};
pub use printing::{key_files_tell_keys_alone, print_keys};
pub use readable::Readable;
pub use reading::read_keys;
pub use saving::{SaveError, save_keys};
pub use site::{Site, read_site};
