//! A deployment in which a client splits a coin, and what nodes tell the client.
use cs_approve::Book;
use cs_base::{CLIENT_SHARD, Config, Key, Memory, NodeId, Sequence};
use cs_client::ClientCore;
use cs_config::{CallFile, Site};
use cs_io::Text;
use cs_test_samples::{TOKEN, coin, spend};
use cs_tx::{Session, State, Value, genesis_key, session_digest};
use cs_tx_value::{Digest, Encoded};
use cs_wire::{Keys, Message, seal};
use std::alloc::Global;
use std::process::Abort;
use std::test::Fail;

pub(crate) const CLIENT: NodeId = NodeId {
    shard: CLIENT_SHARD,
    index: 0,
};

pub(crate) const READ: Digest = [0; 32];

// What comes to the client.
#[derive(Clone, Copy)]
pub(crate) enum Word {
    Tick,
    // The coin is active, or shared, and worth so much; the one that is read.
    Coin(i64),
    SharedCoin(i64),
    Read(i64),
    // The coin isn't active; a session of this byte used it up.
    NoCoin,
    UsedCoin(u8),
    // The dummy of a shard with this serial is active, or isn't.
    Dummy(u16, u64),
    NoDummy(u16, u64),
    // The session is accepted or aborted; another is accepted.
    Accepted,
    Aborted,
    Other,
}

// A deployment, a coin of it, and the digest of the session that the client is to submit.
#[derive(Drop)]
pub(crate) struct Case {
    pub(crate) config: Config,
    pub(crate) name: Digest,
    pub(crate) digest: Digest,
}

fn name_of(rt: &impl Abort, alloc: Global, worth: i64) -> Result<Digest, Fail> {
    let object = coin(alloc, worth)?;
    assert!(rt; object.fits());
    match genesis_key(alloc, 0, &object)? {
        Key::Object(name) => Ok(name),
        Key::Dummy(_, _) => panic!(rt; "a dummy"),
    }
}

// So many shards with f liars, and the split of a coin by these dummies.
pub(crate) fn make_case(
    rt: &impl Abort,
    alloc: Global,
    counts: (u16, u16),
    made: &[i64],
    dummies: &[(u16, u64)],
) -> Result<Case, Fail> {
    let config = Config::new(counts.0, counts.1, 0).expect(rt, "a configuration");
    let worth = made.iter().fold(0i64, |sum, one| sum.saturating_add(*one));
    let name = name_of(rt, alloc, worth)?;
    let mut session = spend(alloc, name, worth, made, 1)?;
    for dummy in dummies {
        session.dummies.push(*dummy)?;
    }
    assert!(rt; session.fits());
    let digest = session_digest(alloc, &session)?;
    Ok(Case {
        config,
        name,
        digest,
    })
}

pub(crate) fn keys_of(alloc: Global, config: &Config, me: NodeId) -> Result<Keys, Memory> {
    Keys::from_master(alloc, config, &[7; 32], me)
}

fn site_of(alloc: Global, case: &Case) -> Site {
    Site {
        config: case.config,
        base_port: 2000,
        contracts: Sequence::new(alloc),
        genesis: Sequence::new(alloc),
    }
}

// The call that splits the coin, and reads another where it is to.
fn call_of(alloc: Global, case: &Case, made: &[i64], reads: &[Digest]) -> Result<CallFile, Memory> {
    let mut call = CallFile {
        contract: TOKEN,
        method: Text::from_string(String::from_str(alloc, "transfer")?),
        inputs: Sequence::new(alloc),
        reads: Sequence::new(alloc),
        args: Sequence::new(alloc),
        number: 1,
        transaction: None,
    };
    if !made.is_empty() {
        call.inputs.push(case.name)?;
    }
    for name in reads {
        call.reads.push(*name)?;
    }
    for worth in made {
        call.args.push(Value::Int(*worth))?;
    }
    Ok(call)
}

// The transaction that makes these coins of the coin, worth so much, in place of a call.
fn given_of(
    rt: &impl Abort,
    alloc: Global,
    case: &Case,
    worth: i64,
    made: &[i64],
) -> Result<CallFile, Fail> {
    let session = spend(alloc, case.name, worth, made, 1)?;
    assert!(rt; session.fits());
    assert!(rt; session.tx.fits());
    let bytes = session.tx.to_bytes(alloc)?;
    let mut call = call_of(alloc, case, &[], &[])?;
    call.transaction = Some(Sequence::from_vec(bytes));
    Ok(call)
}

fn start_call(
    rt: &impl Abort,
    alloc: Global,
    case: &Case,
    call: CallFile,
    dummy: Option<u64>,
) -> Result<ClientCore, Fail> {
    let site = site_of(alloc, case);
    let book = Book::new(alloc, &[]).expect(rt, "a book");
    let keys = keys_of(alloc, &case.config, CLIENT)?;
    Ok(ClientCore::start(alloc, site, keys, book, call, None, dummy)?)
}

// A client that makes that call, and asks for dummies from this serial on.
pub(crate) fn start_from(
    rt: &impl Abort,
    alloc: Global,
    case: &Case,
    made: &[i64],
    reads: &[Digest],
    dummy: Option<u64>,
) -> Result<ClientCore, Fail> {
    let call = call_of(alloc, case, made, reads)?;
    start_call(rt, alloc, case, call, dummy)
}

// A client that submits that transaction.
pub(crate) fn start_given(
    rt: &impl Abort,
    alloc: Global,
    case: &Case,
    worth: i64,
    made: &[i64],
) -> Result<ClientCore, Fail> {
    let call = given_of(rt, alloc, case, worth, made)?;
    start_call(rt, alloc, case, call, None)
}

// The same, which asks for any dummy.
pub(crate) fn start(
    rt: &impl Abort,
    alloc: Global,
    case: &Case,
    made: &[i64],
    reads: &[Digest],
) -> Result<ClientCore, Fail> {
    start_from(rt, alloc, case, made, reads, None)
}

// A client that submits this session.
pub(crate) fn resume(
    rt: &impl Abort,
    alloc: Global,
    case: &Case,
    session: Session,
) -> Result<ClientCore, Fail> {
    assert!(rt; session.fits());
    let site = site_of(alloc, case);
    let call = call_of(alloc, case, &[], &[])?;
    let book = Book::new(alloc, &[]).expect(rt, "a book");
    let keys = keys_of(alloc, &case.config, CLIENT)?;
    let session = Some(session);
    Ok(ClientCore::start(alloc, site, keys, book, call, session, None)?)
}

fn active(alloc: Global, worth: i64) -> Result<State, Memory> {
    Ok(State::Active(coin(alloc, worth)?))
}

// The state of a coin that one session reads.
fn shared(alloc: Global, worth: i64) -> Result<State, Memory> {
    let mut readers = Sequence::new(alloc);
    readers.push([0; 32])?;
    Ok(State::Shared(coin(alloc, worth)?, readers))
}

fn told(alloc: Global, case: &Case, word: Word) -> Result<Message, Memory> {
    let (key, state) = match word {
        Word::Coin(worth) => (Key::Object(case.name), active(alloc, worth)?),
        Word::SharedCoin(worth) => (Key::Object(case.name), shared(alloc, worth)?),
        Word::UsedCoin(byte) => (Key::Object(case.name), State::Inactive([byte; 32])),
        Word::Read(worth) => (Key::Object(READ), active(alloc, worth)?),
        Word::Dummy(shard, serial) => (Key::Dummy(shard, serial), active(alloc, 1)?),
        Word::NoDummy(shard, serial) => (Key::Dummy(shard, serial), State::Unknown),
        _ => (Key::Object(case.name), State::Unknown),
    };
    Ok(Message::Told { key, state })
}

fn message(alloc: Global, case: &Case, word: Word) -> Result<Message, Memory> {
    let (session, accepted) = match word {
        Word::Accepted => (case.digest, true),
        Word::Aborted => (case.digest, false),
        Word::Other => ([1; 32], true),
        _ => return told(alloc, case, word),
    };
    Ok(Message::Decided { session, accepted })
}

// The datagram by which a node tells the client so.
pub(crate) fn sealed(
    rt: &impl Abort,
    alloc: Global,
    case: &Case,
    from: NodeId,
    word: Word,
) -> Result<Vec<u8>, Fail> {
    let message = message(alloc, case, word)?;
    let keys = keys_of(alloc, &case.config, from)?;
    assert!(rt; message.fits(keys.version()));
    let mut bytes = Vec::new(alloc);
    seal(alloc, &keys, CLIENT, &message, &mut bytes)?;
    Ok(bytes)
}
