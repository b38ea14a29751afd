//! The command `client`.
ghost use Rattle.std.specs.Prelude.{◌≡◌, ◌≢◌, option_copied};
ghost use Rattle.cs_base.specs.Outside.{HasCause};
ghost use Rattle.cs_base.specs.Answers.{Answers};
ghost use Rattle.cs_io.specs.Told.{Stays};
ghost use Rattle.cs_io.specs.Outside.{Faultless, Faulty, beside};
ghost use Rattle.cs_deploy.specs.Hosts.{ClientFilesCome};
ghost use Rattle.cs_deploy.specs.Untaken.{IsDecided};
ghost use Rattle.cs_deploy.specs.Client.{ClientGoes, ClientRuns, IsToldOf, TellsEnding, known_answer, known_status, refused_answer};

use crate::binding::bind_or_tell;
use crate::hosts::take_client_files;
use crate::refusals::refusal_line;
use crate::{Setup, refuse, tell};
use cs_base::Sink;
use cs_client::{ClientCore, Known, known_line};
use cs_config::{CallFile, Hosts};
use cs_io::{Link, Store, Until};
use cs_proc::ProcError;
use cs_serve::{Ending, attend};
use std::alloc::Global;

/// Runs the client of a site file, a key file and a call file for so long at most, where a hosts
/// file says if one is named, and answers the status that a program ends with: 0 where it knows what
/// has become of its session, 10 where that is open, 3 where its method is refused, 12 where a file
/// isn't taken, 7 where the link fails, 6 where the sink fails, 8 for want of memory.
pub fn run_client<E: Store, L: Link, K: Sink>(
    alloc: Global,
    site_name: &str,
    keys_name: &str,
    call_name: &str,
    hosts_name: Option<&str>,
    until: Until,
    store: &mut E,
    link: &mut L,
    out: &mut K,
) -> u8
    ensures runs { ClientRuns site_name.now keys_name.now call_name.now
        (option_copied hosts_name.entry) until
        (Faulty E.faults store.old store.new) (Faulty L.faults link.old link.new)
        (E.files store.old) (beside (L.told link.old) (K.written out.old))
        (beside (L.told link.new) (K.written out.new)) result }
    ensures kept { Stays (E.files store.old) (E.files store.new) }
    // Where no fault came about, the files decide, and what the client comes to know.
    ensures whole { Faultless E.faults store.old store.new → Faultless L.faults link.old link.new
        → Faultless K.faults out.old out.new
        → IsDecided
        (ClientFilesCome site_name.now keys_name.now call_name.now (option_copied hosts_name.entry))
        IsToldOf (E.files store.old) result }
    ensures only { (result ≢ 2) × (result ≢ 5) }
    ensures write_fault { HasCause (K.faults out.old) (K.faults out.new) (result ≡ 6) }
{
    match take_client_files(alloc, store, site_name, keys_name, call_name, hosts_name) {
        Ok((both, hosts)) => {
            let (setup, call) = both;
            run_call(alloc, setup, call, hosts, until, link, out)
        }
        Err(why) => refuse(alloc, why, out),
    }
}

// Runs the client of a setup, which makes this call, with a link that is told where all are.
fn run_call<L: Link, K: Sink>(
    alloc: Global,
    setup: Setup,
    call: CallFile,
    hosts: Option<Hosts>,
    until: Until,
    link: &mut L,
    out: &mut K,
) -> u8
    ensures goes { ClientGoes setup call hosts until (Faulty L.faults link.old link.new)
        (beside (L.told link.old) (K.written out.old))
        (beside (L.told link.new) (K.written out.new)) result }
    ensures write_fault { HasCause (K.faults out.old) (K.faults out.new) (result ≡ 6) }
{
    let me = setup.keys.me();
    let base_port = setup.site.base_port;
    let Setup { site, book, keys } = setup;
    let Ok(client) = ClientCore::start(alloc, site, keys, book, call, None, None) else {
        return 8;
    };
    match bind_or_tell(link, &hosts, me, base_port, out) {
        Ok(()) => tell_ending(alloc, attend(alloc, client, link, until), out),
        Err(status) => status,
    }
}

/// Tells how the run of a client has ended.
pub(crate) fn tell_ending<K: Sink>(alloc: Global, ending: Ending, out: &mut K) -> u8
    ensures tells { TellsEnding ending (K.written out.old) (K.written out.new) result }
    ensures cause { HasCause (K.faults out.old) (K.faults out.new) (result ≡ 6) }
{
    match ending {
        Ending::Knows(known) => tell_known(alloc, known, out),
        Ending::Refused(cause) => tell_refused(alloc, cause, out),
        Ending::LinkFault => tell(out, b"link fault\n", 7),
        Ending::Memory => 8,
    }
}

fn status_of(known: Known) -> u8
    ensures { result ≡ known_status known }
{
    match known {
        Known::Open => 10,
        Known::Accepted(_) | Known::Aborted(_) => 0,
    }
}

// Tells what a client knows.
fn tell_known<K: Sink>(alloc: Global, known: Known, out: &mut K) -> u8
    ensures answers { Answers (known_answer known) (K.written out.old) (K.written out.new) result }
    ensures cause { HasCause (K.faults out.old) (K.faults out.new) (result ≡ 6) }
{
    match known_line(alloc, known) {
        Ok(line) => tell(out, line.as_bytes(), status_of(known)),
        Err(_) => 8,
    }
}

// Tells why a client's method isn't run.
fn tell_refused<K: Sink>(alloc: Global, cause: ProcError, out: &mut K) -> u8
    ensures answers { Answers (refused_answer cause)
        (K.written out.old) (K.written out.new) result }
    ensures cause { HasCause (K.faults out.old) (K.faults out.new) (result ≡ 6) }
{
    match refusal_line(alloc, cause) {
        Ok(line) => tell(out, line.as_bytes(), 3),
        Err(_) => 8,
    }
}
