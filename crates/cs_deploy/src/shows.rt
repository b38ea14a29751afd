//! The command `show`.
ghost use Rattle.std.specs.Prelude.{◌≡◌, ◌≢◌, Some, IsErrAnd, option_copied};
ghost use Rattle.cs_base.specs.Outside.{HasCause};
ghost use Rattle.cs_io.specs.Told.{Stays};
ghost use Rattle.cs_io.specs.Outside.{Faultless, Faulty, beside};
ghost use Rattle.cs_deploy.specs.Taking.{IsStoreFault, TakesFiles, FilesCome};
ghost use Rattle.cs_deploy.specs.Untaken.{IsDecided};
ghost use Rattle.cs_deploy.specs.Client.{IsToldOf};
ghost use Rattle.cs_deploy.specs.Show.{has_shard, show_taken, TellsLook, ShowGoes, ShowRuns};

use crate::binding::bind_or_tell;
use crate::cause::Untaken;
use crate::hosts::take_hosts;
use crate::keys::{Role, take_keys};
use crate::sites::take_site;
use crate::telling::{refuse, tell};
use cs_base::{Config, Key, Sink, shard_of};
use cs_config::{Hosts, Site};
use cs_io::{Link, Store, Until};
use cs_show::{Ending, Looker, Lookup, look};
use cs_wire::Keys;
use std::alloc::Global;

// Whether the site has the shard that holds the key.
fn has_shard(config: &Config, key: &Key) -> bool
    ensures { result ≡ has_shard config.now key.now }
{
    shard_of(config, key) < config.shards
}

// The site, the keys of a client and where all are; none where no shard of the site holds the key.
fn take_shown<E: Store>(
    alloc: Global,
    store: &mut E,
    site_name: &str,
    keys_name: &str,
    hosts_name: Option<&str>,
    key: Key,
) -> Result<Option<(Site, Keys, Option<Hosts>)>, Untaken>
    ensures taken { TakesFiles
        (FilesCome (show_taken site_name.now keys_name.now (option_copied hosts_name.entry) key))
        (E.files store.old) result }
    ensures kept { Stays (E.files store.old) (E.files store.new) }
    ensures cause { HasCause (E.faults store.old) (E.faults store.new) (IsErrAnd result IsStoreFault) }
{
    let site = take_site(alloc, store, site_name)?;
    if !has_shard(&site.config, &key) {
        return Ok(None);
    }
    let keys = take_keys(alloc, store, Role::Client, &site, keys_name)?;
    let hosts = take_hosts(alloc, store, &site.config, hosts_name)?;
    Ok(Some((site, keys, hosts)))
}

/// Looks a key up, by a site file and a client's key file, for so long at most, where a hosts file
/// says if one is named, and answers the status that a program ends with: 0 where f+1 nodes of its
/// shard told one state, 10 where that is open, 3 where the site has no such shard, 12 where a file
/// isn't taken, 7 where the link fails, 6 where the sink fails, 8 for want of memory.
pub fn run_show<E: Store, L: Link, K: Sink>(
    alloc: Global,
    site_name: &str,
    keys_name: &str,
    hosts_name: Option<&str>,
    key: Key,
    until: Until,
    store: &mut E,
    link: &mut L,
    out: &mut K,
) -> u8
    ensures runs { ShowRuns site_name.now keys_name.now (option_copied hosts_name.entry) key until
        (Faulty E.faults store.old store.new) (Faulty L.faults link.old link.new)
        (E.files store.old) (beside (L.told link.old) (K.written out.old))
        (beside (L.told link.new) (K.written out.new)) result }
    ensures kept { Stays (E.files store.old) (E.files store.new) }
    // Where no fault came about, the files decide, and what nodes tell.
    ensures whole { Faultless E.faults store.old store.new → Faultless L.faults link.old link.new
        → Faultless K.faults out.old out.new
        → IsDecided
        (FilesCome (show_taken site_name.now keys_name.now (option_copied hosts_name.entry) key))
        IsToldOf (E.files store.old) result }
    ensures only { (result ≢ 2) × (result ≢ 5) }
    ensures write_fault { HasCause (K.faults out.old) (K.faults out.new) (result ≡ 6) }
{
    match take_shown(alloc, store, site_name, keys_name, hosts_name, key) {
        Ok(taken) => run_taken(alloc, taken, key, until, link, out),
        Err(why) => refuse(alloc, why, out),
    }
}

// Looks a key up whose files are taken.
fn run_taken<L: Link, K: Sink>(
    alloc: Global,
    taken: Option<(Site, Keys, Option<Hosts>)>,
    key: Key,
    until: Until,
    link: &mut L,
    out: &mut K,
) -> u8
    ensures goes { ShowGoes key until (Faulty L.faults link.old link.new) taken
        (beside (L.told link.old) (K.written out.old))
        (beside (L.told link.new) (K.written out.new)) result }
    ensures write_fault { HasCause (K.faults out.old) (K.faults out.new) (result ≡ 6) }
{
    match taken {
        Some((site, keys, hosts)) => run_lookup(alloc, site, keys, hosts, key, until, link, out),
        None => tell(out, b"refused call shard\n", 3),
    }
}

// Binds the link, told where all are, and looks the key up.
fn run_lookup<L: Link, K: Sink>(
    alloc: Global,
    site: Site,
    keys: Keys,
    hosts: Option<Hosts>,
    key: Key,
    until: Until,
    link: &mut L,
    out: &mut K,
) -> u8
    ensures goes { ShowGoes key until (Faulty L.faults link.old link.new) (Some (site, keys, hosts))
        (beside (L.told link.old) (K.written out.old))
        (beside (L.told link.new) (K.written out.new)) result }
    ensures write_fault { HasCause (K.faults out.old) (K.faults out.new) (result ≡ 6) }
{
    let me = keys.me();
    let base_port = site.base_port;
    let lookup = Lookup {
        config: site.config,
        keys,
        key,
    };
    let Ok(looker) = Looker::start(alloc, lookup) else {
        return 8;
    };
    match bind_or_tell(link, &hosts, me, base_port, out) {
        Ok(()) => tell_look(look(alloc, looker, link, until), out),
        Err(status) => status,
    }
}

// Tells how looking a key up has ended.
fn tell_look<K: Sink>(ending: Ending, out: &mut K) -> u8
    ensures tells { TellsLook ending (K.written out.old) (K.written out.new) result }
    ensures cause { HasCause (K.faults out.old) (K.faults out.new) (result ≡ 6) }
{
    match ending {
        Ending::Tells(line) => tell(out, line.as_str().as_bytes(), 0),
        Ending::Open => tell(out, b"open\n", 10),
        Ending::LinkFault => tell(out, b"link fault\n", 7),
        Ending::Memory => 8,
    }
}
