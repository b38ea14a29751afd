//! The command `client` that submits a session of its call which was made before.
ghost use Rattle.std.specs.Prelude.{◌≡◌, ◌≢◌, IfOk, IfSome, is_none, option_copied};
ghost use Rattle.cs_base.specs.Fields.{whole_at};
ghost use Rattle.cs_base.specs.Outside.{HasCause};
ghost use Rattle.cs_io.specs.Told.{Stays};
ghost use Rattle.cs_io.specs.Outside.{Faultless, Faulty, beside};
ghost use Rattle.cs_tx_types.specs.Reading.{session_at};
ghost use Rattle.cs_tx_types.specs.Session.{SessionFits};
ghost use Rattle.cs_tx.specs.WellFormed.{IsWellFormed, fault_of};
ghost use Rattle.cs_deploy.specs.Hosts.{ClientFilesCome};
ghost use Rattle.cs_deploy.specs.Untaken.{IsDecided};
ghost use Rattle.cs_deploy.specs.Client.{IsToldOf};
ghost use Rattle.cs_deploy.specs.Session.{is_of_call, where_of_call, session_of_hex, session_of_word, wishes_of, Resumes, SessionGoes, SessionRuns};

use crate::hosts::take_client_files;
use crate::tries::try_call;
use crate::wishes::Wishes;
use crate::{Setup, refuse, tell};
use cs_base::{Config, Memory, Sink, read_bytes};
use cs_config::{CallFile, Hosts};
use cs_io::{Link, Store, Until};
use cs_tx::{Malformed, well_formed};
use cs_tx_types::Session;
use cs_tx_value::{Encoded, FormError};
use std::alloc::Global;

// The session of which these bytes are the encoding.
fn decode_session(alloc: Global, bytes: &[u8]) -> Result<Option<Session>, Memory>
    ensures given { IfOk result (λ session. session ≡ whole_at session_at bytes.now) }
    ensures fits { IfOk result (λ session. IfSome session SessionFits) }
{
    match Session::decode(alloc, bytes) {
        Ok(session) => Ok(Some(session)),
        Err(FormError::Memory) => Err(Memory),
        Err(FormError::BadForm) => Ok(None),
        Err(FormError::TooLong) => Ok(None),
    }
}

// The session of whose encoding the word is the hex.
fn read_hex(alloc: Global, word: &str) -> Result<Option<Session>, Memory>
    ensures given { IfOk result (λ session. session ≡ session_of_hex word.now) }
    ensures fits { IfOk result (λ session. IfSome session SessionFits) }
{
    match read_bytes(alloc, word.as_bytes())? {
        Some(bytes) => decode_session(alloc, bytes.as_slice()),
        None => Ok(None),
    }
}

fn is_well_formed(alloc: Global, config: &Config, session: &Session) -> Result<bool, Memory>
    requires { SessionFits session.now }
    ensures { IfOk result (λ yes. yes ≡ is_none (fault_of config.now session.now)) }
{
    match well_formed(alloc, session, config) {
        Ok(()) => Ok(true),
        Err(Malformed::Memory) => Err(Memory),
        Err(
            Malformed::NoInput
            | Malformed::TwiceUsed(_)
            | Malformed::Foreign(_)
            | Malformed::Dep(_)
            | Malformed::Dummies,
        ) => Ok(false),
    }
}

// Whether it has the number of the call, and is well-formed at the site.
fn is_of_call(
    alloc: Global,
    config: &Config,
    number: u64,
    session: &Session,
) -> Result<bool, Memory>
    requires { SessionFits session.now }
    ensures { IfOk result (λ yes. yes ≡ is_of_call config.now number session.now) }
{
    if session.number != number {
        return Ok(false);
    }
    is_well_formed(alloc, config, session)
}

// The session, where it is one of the call of this number.
fn where_of_call(
    alloc: Global,
    config: &Config,
    number: u64,
    session: Session,
) -> Result<Option<Session>, Memory>
    requires { SessionFits session }
    ensures given { IfOk result (λ ours. ours ≡ where_of_call config.now number session) }
    ensures fits { IfOk result (λ ours. IfSome ours SessionFits) }
    ensures formed { IfOk result (λ ours. IfSome ours (IsWellFormed config.now)) }
{
    let ours = is_of_call(alloc, config, number, &session)?;
    if ours { Ok(Some(session)) } else { Ok(None) }
}

// The session that the word says, where it is one of the call of this number.
fn read_session(
    alloc: Global,
    config: &Config,
    number: u64,
    word: &str,
) -> Result<Option<Session>, Memory>
    ensures given { IfOk result (λ session. session ≡ session_of_word config.now number word.now) }
    ensures fits { IfOk result (λ session. IfSome session SessionFits) }
    ensures formed { IfOk result (λ session. IfSome session (IsWellFormed config.now)) }
{
    match read_hex(alloc, word)? {
        Some(session) => where_of_call(alloc, config, number, session),
        None => Ok(None),
    }
}

/// Runs the client of a site file, a key file and a call file for so long at most, where a hosts
/// file says if one is named. It submits the session of the call that the word says, by its
/// encoding in hex, and asks for no object and no dummy; with details it prints what it has made. It
/// answers the status of a client; 3 where the word says no session of the call.
pub fn run_client_session<E: Store, L: Link, K: Sink>(
    alloc: Global,
    site_name: &str,
    keys_name: &str,
    call_name: &str,
    hosts_name: Option<&str>,
    word: &str,
    details: bool,
    until: Until,
    store: &mut E,
    link: &mut L,
    out: &mut K,
) -> u8
    ensures runs { SessionRuns site_name.now keys_name.now call_name.now
        (option_copied hosts_name.entry) word.now details until
        (Faulty E.faults store.old store.new) (Faulty L.faults link.old link.new)
        (E.files store.old) (beside (L.told link.old) (K.written out.old))
        (beside (L.told link.new) (K.written out.new)) result }
    ensures kept { Stays (E.files store.old) (E.files store.new) }
    // Where no fault came about, the files decide, and what the client comes to know.
    ensures whole { Faultless E.faults store.old store.new → Faultless L.faults link.old link.new
        → Faultless K.faults out.old out.new
        → IsDecided
        (ClientFilesCome site_name.now keys_name.now call_name.now (option_copied hosts_name.entry))
        IsToldOf (E.files store.old) result }
    ensures only { (result ≢ 2) × (result ≢ 5) }
    ensures write_fault { HasCause (K.faults out.old) (K.faults out.new) (result ≡ 6) }
{
    match take_client_files(alloc, store, site_name, keys_name, call_name, hosts_name) {
        Ok((both, hosts)) => {
            let (setup, call) = both;
            resume(alloc, setup, call, hosts, word, details, until, link, out)
        }
        Err(why) => refuse(alloc, why, out),
    }
}

// What is asked of a client that submits a session.
fn wishes_of(details: bool) -> Wishes
    ensures { result ≡ wishes_of details }
{
    Wishes {
        details,
        tries: 1,
        dummy: None,
    }
}

// Runs the client of a setup, which submits the session of this call that the word says.
fn resume<L: Link, K: Sink>(
    alloc: Global,
    setup: Setup,
    call: CallFile,
    hosts: Option<Hosts>,
    word: &str,
    details: bool,
    until: Until,
    link: &mut L,
    out: &mut K,
) -> u8
    ensures goes { SessionGoes setup call hosts word.now details until
        (Faulty L.faults link.old link.new)
        (beside (L.told link.old) (K.written out.old))
        (beside (L.told link.new) (K.written out.new)) result }
    ensures write_fault { HasCause (K.faults out.old) (K.faults out.new) (result ≡ 6) }
{
    match read_session(alloc, &setup.site.config, call.number, word) {
        Ok(session) => resubmit(
            alloc, setup, call, session, hosts, details, until, link, out,
        ),
        Err(_) => 8,
    }
}

// The same, where the word says this session of the call, or none.
fn resubmit<L: Link, K: Sink>(
    alloc: Global,
    setup: Setup,
    call: CallFile,
    session: Option<Session>,
    hosts: Option<Hosts>,
    details: bool,
    until: Until,
    link: &mut L,
    out: &mut K,
) -> u8
    requires fits { IfSome session SessionFits }
    requires formed { IfSome session (IsWellFormed setup.site.config) }
    ensures goes { Resumes setup call hosts details until
        (Faulty L.faults link.old link.new) session
        (beside (L.told link.old) (K.written out.old))
        (beside (L.told link.new) (K.written out.new)) result }
    ensures write_fault { HasCause (K.faults out.old) (K.faults out.new) (result ≡ 6) }
{
    match session {
        Some(session) => {
            let session = Some(session);
            let wishes = wishes_of(details);
            try_call(alloc, setup, call, session, hosts, wishes, until, link, out)
        }
        None => tell(out, b"refused call session\n", 3),
    }
}
