//! The command `keys`.
ghost use Rattle.std.specs.Prelude.{◌≡◌, ◌≢◌, ◌≤◌, ◌⊎◌};
ghost use Rattle.cs_base.specs.Outside.{HasCause};
ghost use Rattle.cs_io.specs.Outside.{Faultless, Faulty, beside};
ghost use Rattle.cs_deploy.specs.Taking.{FilesCome};
ghost use Rattle.cs_deploy.specs.Files.{site_taken};
ghost use Rattle.cs_deploy.specs.Untaken.{IsDecided};
ghost use Rattle.cs_deploy.specs.Keys.{KeysRuns, IsSaved};
ghost use Rattle.cs_deploy.specs.ReadKeys.{SavesUnder, IsUnread, IsRead, ReadKeysRuns, EndsAsRead};

use crate::limits::MOST_MASTER;
use crate::master::master_of;
use crate::take_site;
use crate::telling::{refuse, tell, tell_unsaved};
use cs_base::{ReadError, Sink, Source, read_text};
use cs_config::{Site, save_keys};
use cs_io::Store;
use cs_tx_value::Digest;
use std::alloc::Global;

/// Saves the key files that a master key gives the nodes and clients of the site of this file, and
/// answers the status that a program ends with: 0 where all are saved, 12 where the site isn't taken
/// or the store fails, 6 where the sink fails, 8 for want of memory.
pub fn run_keys<E: Store, K: Sink>(
    alloc: Global,
    name: &str,
    master: &Digest,
    store: &mut E,
    out: &mut K,
) -> u8
    ensures runs { KeysRuns name.now master.now
        (Faulty E.faults store.old store.new) (E.files store.old) (E.files store.new)
        (K.written out.old) (K.written out.new) result }
    // Where no fault came about, the site file alone decides.
    ensures whole { Faultless E.faults store.old store.new → Faultless K.faults out.old out.new
        → IsDecided (FilesCome (site_taken name.now)) (λ status. status ≡ 0)
        (E.files store.old) result }
    ensures only { (result ≢ 2) × (result ≢ 5) }
    ensures write_fault { HasCause (K.faults out.old) (K.faults out.new) (result ≡ 6) }
{
    match take_site(alloc, store, name) {
        Ok(site) => save_site(alloc, &site, master, store, out),
        Err(why) => refuse(alloc, why, out),
    }
}

// Saves the key files of a site.
fn save_site<E: Store, K: Sink>(
    alloc: Global,
    site: &Site,
    master: &Digest,
    store: &mut E,
    out: &mut K,
) -> u8
    ensures saved { IsSaved site.now master.now
        (Faulty E.faults store.old store.new) (E.files store.old) (E.files store.new)
        (K.written out.old) (K.written out.new) result }
    ensures store { E.faults store.old ≤ E.faults store.new }
    ensures write_fault { HasCause (K.faults out.old) (K.faults out.new) (result ≡ 6) }
{
    match save_keys(alloc, store, site, master) {
        Ok(()) => 0,
        Err(error) => tell_unsaved(alloc, error, out),
    }
}

/// The same under the master key that the input says, which is read behind the site file. It answers
/// 3 too where the input says none, and 5 where it fails; then no file is saved.
pub fn run_keys_read<S: Source, E: Store, K: Sink>(
    alloc: Global,
    name: &str,
    input: &mut S,
    store: &mut E,
    out: &mut K,
) -> u8
    ensures runs { ReadKeysRuns name.now
        (Faulty E.faults store.old store.new) (Faulty S.faults input.old input.new)
        (S.left input.old) (S.left input.new) (beside (E.files store.old) (K.written out.old))
        (beside (E.files store.new) (K.written out.new)) result }
    // Where no fault came about, the site file and the text of the input alone decide.
    ensures whole { Faultless E.faults store.old store.new → Faultless S.faults input.old input.new
        → Faultless K.faults out.old out.new
        → IsDecided (FilesCome (site_taken name.now)) (EndsAsRead (S.left input.old))
        (E.files store.old) result }
    ensures only { result ≢ 2 }
    ensures read_fault { HasCause (S.faults input.old) (S.faults input.new) (result ≡ 5) }
    ensures write_fault { HasCause (K.faults out.old) (K.faults out.new) (result ≡ 6) }
{
    match take_site(alloc, store, name) {
        Ok(site) => save_read(alloc, &site, input, store, out),
        Err(why) => refuse(alloc, why, out),
    }
}

// Saves the key files of a site under the master key that the input says.
fn save_read<S: Source, E: Store, K: Sink>(
    alloc: Global,
    site: &Site,
    input: &mut S,
    store: &mut E,
    out: &mut K,
) -> u8
    ensures saves { let old = beside (E.files store.old) (K.written out.old) in
        let new = beside (E.files store.new) (K.written out.new) in
        IsUnread (Faulty S.faults input.old input.new) old new result
        ⊎ IsRead site.now (Faulty E.faults store.old store.new) (S.left input.old)
        (S.left input.new) old new result }
    ensures store { E.faults store.old ≤ E.faults store.new }
    ensures read_fault { HasCause (S.faults input.old) (S.faults input.new) (result ≡ 5) }
    ensures write_fault { HasCause (K.faults out.old) (K.faults out.new) (result ≡ 6) }
{
    match read_text(alloc, MOST_MASTER, input) {
        Ok(text) => save_under(alloc, site, master_of(&text), store, out),
        Err(ReadError::Failed) => tell(out, b"read fault\n", 5),
        Err(ReadError::Memory) => 8,
    }
}

// Saves the key files of a site under this master key, or tells that there is none.
fn save_under<E: Store, K: Sink>(
    alloc: Global,
    site: &Site,
    master: Option<Digest>,
    store: &mut E,
    out: &mut K,
) -> u8
    ensures saves { SavesUnder master site.now (Faulty E.faults store.old store.new)
        (beside (E.files store.old) (K.written out.old))
        (beside (E.files store.new) (K.written out.new)) result }
    ensures store { E.faults store.old ≤ E.faults store.new }
    ensures other { result ≢ 5 }
    ensures write_fault { HasCause (K.faults out.old) (K.faults out.new) (result ≡ 6) }
{
    match master {
        Some(master) => save_site(alloc, site, &master, store, out),
        None => tell(out, b"refused master\n", 3),
    }
}
