//! The command `client` whose call is made again after it was aborted, or that tells details.
ghost use Rattle.std.specs.Prelude.{◌≡◌, ◌≢◌, ◌⊎◌, ◌≤◌, IfSome, None, option_copied};
ghost use Rattle.cs_base.specs.Outside.{HasCause};
ghost use Rattle.cs_io.specs.Told.{Stays};
ghost use Rattle.cs_io.specs.Outside.{Faultless, Faulty, beside};
ghost use Rattle.cs_tx_types.specs.Session.{SessionFits};
ghost use Rattle.cs_tx.specs.WellFormed.{IsWellFormed};
ghost use Rattle.cs_deploy.specs.Hosts.{ClientFilesCome};
ghost use Rattle.cs_deploy.specs.Untaken.{IsDecided};
ghost use Rattle.cs_deploy.specs.Client.{IsToldOf};
ghost use Rattle.cs_deploy.specs.Tries.{judged, TriesGo, TriesGoBy, TriesRun, TellsTryEnding};

use crate::binding::bind_or_tell;
use crate::clients::tell_ending;
use crate::hosts::take_client_files;
use crate::wishes::Wishes;
use crate::{Setup, refuse, tell};
use cs_base::Sink;
use cs_client::ClientCore;
use cs_config::{CallFile, Hosts};
use cs_io::{Link, Store, Until};
use cs_judge::{CallFault, fault_line, fault_of_call};
use cs_tries::{TryEnding, attend_tries};
use cs_tx_types::Session;
use std::alloc::Global;

/// Runs the client of a site file, a key file and a call file for so long at most, where a hosts
/// file says if one is named, and makes its call again after it was aborted, under the next number,
/// as often as it is asked for. With details it first tells what is wrong with the call by its file alone;
/// it prints each session before it is submitted, of one that is accepted the transaction, and of
/// one of which it knows nothing what it waits for. It answers the status of the last try.
pub fn run_client_tries<E: Store, L: Link, K: Sink>(
    alloc: Global,
    site_name: &str,
    keys_name: &str,
    call_name: &str,
    hosts_name: Option<&str>,
    wishes: Wishes,
    until: Until,
    store: &mut E,
    link: &mut L,
    out: &mut K,
) -> u8
    ensures runs { TriesRun site_name.now keys_name.now call_name.now
        (option_copied hosts_name.entry) wishes until
        (Faulty E.faults store.old store.new) (Faulty L.faults link.old link.new)
        (E.files store.old) (beside (L.told link.old) (K.written out.old))
        (beside (L.told link.new) (K.written out.new)) result }
    ensures kept { Stays (E.files store.old) (E.files store.new) }
    // Where no fault came about, the files decide, and what the client comes to know.
    ensures whole { Faultless E.faults store.old store.new → Faultless L.faults link.old link.new
        → Faultless K.faults out.old out.new
        → IsDecided
        (ClientFilesCome site_name.now keys_name.now call_name.now (option_copied hosts_name.entry))
        IsToldOf (E.files store.old) result }
    ensures only { (result ≢ 2) × (result ≢ 5) }
    ensures write_fault { HasCause (K.faults out.old) (K.faults out.new) (result ≡ 6) }
{
    match take_client_files(alloc, store, site_name, keys_name, call_name, hosts_name) {
        Ok((both, hosts)) => {
            let (setup, call) = both;
            judge_call(alloc, setup, call, hosts, wishes, until, link, out)
        }
        Err(why) => refuse(alloc, why, out),
    }
}

// The first fault of a call, by its file and the contracts alone, where it is looked for.
fn judged(details: bool, setup: &Setup, call: &CallFile) -> Option<CallFault>
    ensures { result ≡ judged details setup.now call.now }
{
    if details {
        fault_of_call(&setup.book, call)
    } else {
        None
    }
}

// Tells the fault of a call, or runs the client of a setup that makes it.
fn judge_call<L: Link, K: Sink>(
    alloc: Global,
    setup: Setup,
    call: CallFile,
    hosts: Option<Hosts>,
    wishes: Wishes,
    until: Until,
    link: &mut L,
    out: &mut K,
) -> u8
    ensures goes { TriesGo setup call hosts wishes until (Faulty L.faults link.old link.new)
        (beside (L.told link.old) (K.written out.old))
        (beside (L.told link.new) (K.written out.new)) result }
    ensures write_fault { HasCause (K.faults out.old) (K.faults out.new) (result ≡ 6) }
{
    match judged(wishes.details, &setup, &call) {
        Some(fault) => tell(out, fault_line(fault), 3),
        None => try_call(alloc, setup, call, None, hosts, wishes, until, link, out),
    }
}

/// Runs the client of a setup, which makes this call so often at most, or first submits the session
/// of it that was made before, with a link that is told where all are.
pub(crate) fn try_call<L: Link, K: Sink>(
    alloc: Global,
    setup: Setup,
    call: CallFile,
    session: Option<Session>,
    hosts: Option<Hosts>,
    wishes: Wishes,
    until: Until,
    link: &mut L,
    out: &mut K,
) -> u8
    requires fits { IfSome session SessionFits }
    requires formed { IfSome session (IsWellFormed setup.site.config) }
    ensures goes { TriesGoBy None setup call session hosts wishes until
        (Faulty L.faults link.old link.new)
        (beside (L.told link.old) (K.written out.old))
        (beside (L.told link.new) (K.written out.new)) result }
    ensures write_fault { HasCause (K.faults out.old) (K.faults out.new) (result ≡ 6) }
{
    let me = setup.keys.me();
    let base_port = setup.site.base_port;
    let Setup { site, book, keys } = setup;
    let Ok(client) = ClientCore::start(alloc, site, keys, book, call, session, wishes.dummy) else {
        return 8;
    };
    match bind_or_tell(link, &hosts, me, base_port, out) {
        Ok(()) => {
            let ending = attend_tries(
                alloc,
                client,
                wishes.details,
                wishes.tries,
                link,
                out,
                until,
            );
            tell_tries(alloc, ending, out)
        }
        Err(status) => status,
    }
}

// Tells how the run of a client has ended.
fn tell_tries<K: Sink>(alloc: Global, ending: TryEnding, out: &mut K) -> u8
    ensures tells { TellsTryEnding ending (K.written out.old) (K.written out.new) result }
    ensures faults { K.faults out.old ≤ K.faults out.new }
    ensures cause { result ≡ 6 → (ending ≡ TryEnding.WriteFault) ⊎ Faulty K.faults out.old out.new }
{
    match ending {
        TryEnding::Ended(ending) => tell_ending(alloc, ending, out),
        TryEnding::Told(_) => 0,
        TryEnding::Waits(text) => tell(out, text.as_str().as_bytes(), 10),
        TryEnding::WriteFault => 6,
    }
}
