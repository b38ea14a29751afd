//! The words of the commands of a deployment: files, by their places, a key.
ghost use Rattle.std.specs.Prelude.{◌≡◌, option_copied};
ghost use Rattle.cs_cli.specs.Words.{texts_of};
ghost use Rattle.cs_cli.specs.Deployed.{word_at, word_if, is_file, keys_called, reads_master, cluster_called, deployment_of_word};

use crate::wishes::read_wished;
use cs_base::Key;
use cs_deploy::{Wishes, master_in};
use cs_io::Until;
use cs_tx_value::Digest;

/// A command of a deployment. Its files stand at these places among the words.
#[derive(Clone, Copy, Debug, PartialEq, Eq)]
pub enum Deployment {
    /// Runs the node of a site file and a key file for so long, where a hosts file says, if there is
    /// one, and prints its lines.
    Node {
        site: usize,
        keys: usize,
        hosts: Option<usize>,
        until: Until,
    },
    /// Runs the client of a site file, a key file and a call file for so long at most, where a hosts
    /// file says, if there is one, and prints what has become of its call.
    Client {
        site: usize,
        keys: usize,
        call: usize,
        hosts: Option<usize>,
        until: Until,
    },
    /// The same, with what else it is asked for: details, how often it is tried, and dummies of its
    /// own.
    ClientTries {
        site: usize,
        keys: usize,
        call: usize,
        hosts: Option<usize>,
        wishes: Wishes,
        until: Until,
    },
    /// The same, which submits the session of its call that stands at this place among the words, by
    /// its encoding in hex.
    ClientSession {
        site: usize,
        keys: usize,
        call: usize,
        hosts: Option<usize>,
        details: bool,
        session: usize,
        until: Until,
    },
    /// Looks a key up, by a site file and a key file, for so long at most, where a hosts file says, if
    /// there is one, and prints what its shard tells of it.
    Show {
        site: usize,
        keys: usize,
        key: Key,
        hosts: Option<usize>,
        until: Until,
    },
    /// Saves the key files that a master key gives the nodes and clients of a site file.
    Keys {
        site: usize,
        master: Digest,
    },
    /// Saves the key files of a plan file's site, starts all its nodes, runs the calls, and prints
    /// how each child has ended.
    Cluster {
        plan: usize,
    },
}

/// The word at a place, the command's own at 0.
pub(crate) fn word_at(words: &[String], place: usize) -> &str
    ensures { result.now ≡ word_at (texts_of words.now) place }
{
    match words.get(place) {
        Some(word) => word.as_str(),
        None => "",
    }
}

/// The word at a place, where there is one.
pub(crate) fn word_if(words: &[String], place: Option<usize>) -> Option<&str>
    ensures { option_copied result ≡ word_if (texts_of words.now) place }
{
    let place = place?;
    Some(word_at(words, place))
}

/// Whether the word is no option.
pub(crate) fn is_file(word: &str) -> bool
    ensures { result ≡ is_file word.now }
{
    match word.as_bytes().first() {
        Some(code) => *code != b'-',
        None => false,
    }
}

// The words behind `keys`.
fn read_keys(options: &[String]) -> Option<Deployment>
    ensures { result ≡ keys_called (texts_of options.now) }
{
    let (site, behind) = options.split_first()?;
    let (master, others) = behind.split_first()?;
    if !others.is_empty() || !is_file(site.as_str()) {
        return None;
    }
    let master = master_in(master.as_bytes())?;
    Some(Deployment::Keys { site: 1, master })
}

/// Whether the words behind `keys` say that the input has the master key.
pub(crate) fn reads_master(options: &[String]) -> bool
    ensures { result ≡ reads_master (texts_of options.now) }
{
    let Some((site, behind)) = options.split_first() else {
        return false;
    };
    let Some((master, others)) = behind.split_first() else {
        return false;
    };
    others.is_empty() && is_file(site.as_str()) && master.as_str() == "-"
}

// The words behind `cluster`.
fn read_cluster(options: &[String]) -> Option<Deployment>
    ensures { result ≡ cluster_called (texts_of options.now) }
{
    let (plan, others) = options.split_first()?;
    if others.is_empty() && is_file(plan.as_str()) {
        Some(Deployment::Cluster { plan: 1 })
    } else {
        None
    }
}

/// The command of a deployment of this word, with the words behind it.
pub(crate) fn read_deployment(word: &str, options: &[String]) -> Option<Deployment>
    ensures { result ≡ deployment_of_word word.now (texts_of options.now) }
{
    match word {
        "keys" => read_keys(options),
        "cluster" => read_cluster(options),
        _ => read_wished(word, options),
    }
}
