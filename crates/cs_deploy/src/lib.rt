//! The commands of a deployment: `node` and `client`, which run one by the files that name it,
//! `show`, which looks a key up, `keys`, which saves the key files of a site, and `cluster`, which saves these and runs all
//! nodes and the calls of a plan. Files are taken in their order; of the first that isn't taken
//! it is told why.
#![tactic(auto)]

mod binding;
mod calls;
mod cause;
mod clients;
mod clusters;
mod contracts;
mod genesis;
mod hosts;
mod keys;
mod keys_command;
mod limits;
mod loading;
mod master;
mod nodes;
mod refusals;
mod sessions;
mod setups;
mod shows;
mod sites;
mod starting;
mod telling;
mod tries;
mod wishes;

pub use binding::bind_or_tell;
pub use calls::take_client;
pub use cause::{Cause, Untaken, refusal_line};
pub use clients::run_client;
pub use clusters::run_cluster;
pub use contracts::{book_of, take_texts};
pub use genesis::has_twice;
pub use hosts::take_hosts;
pub use keys::{Role, take_keys};
pub use keys_command::{run_keys, run_keys_read};
pub use limits::{MASTER_DIGITS, MOST_MASTER, MOST_TRIES};
pub use loading::{MOST_FILE, load, refused, unread};
pub use master::{master_in, master_of};
pub use nodes::{run_node, tell_end};
pub use sessions::run_client_session;
pub use setups::{Setup, take_node};
pub use shows::run_show;
pub use sites::{take_cluster, take_site};
pub use starting::start_node;
pub use telling::{refuse, refuse_file, tell};
pub use tries::run_client_tries;
pub use wishes::Wishes;
