//! The words that stand behind all others of a client: details, how often its call is tried, and
//! which dummies it asks for; or details, and which session of it is submitted.
ghost use Rattle.std.specs.Prelude.{◌≡◌, ◌+◌, ◌^◌, ◌<◌, ◌≤◌, IfSome, length, option_map};
ghost use Rattle.std.specs.List.{position};
ghost use Rattle.cs_base.specs.Codes.{number_of};
ghost use Rattle.cs_cli.specs.Words.{texts_of};
ghost use Rattle.cs_cli.specs.Deployed.{run_called, hosted};
ghost use Rattle.cs_cli.specs.Wished.{is_wish_word, unasked, word_read, tries_in, with_tries, with_dummy, one_read, all_read, wishes_of, with_asked, with_session, by_session, waits_for_none, asked_of, with_wishes, wished};

use crate::deployments::Deployment;
use crate::runs::read_run;
use cs_base::read_number;
use cs_deploy::{MOST_TRIES, Wishes};
use cs_io::read_short_number;

/// What the last word waits for.
#[derive(Clone, Copy, Debug, PartialEq, Eq)]
pub(crate) enum Waiting {
    Nothing,
    /// A number of tries.
    Tries,
    /// The serial of a dummy.
    Dummy,
    /// The encoding of a session.
    Session,
}

/// What was asked for so far.
#[derive(Clone, Copy, Debug, PartialEq, Eq)]
pub(crate) struct Asked {
    pub(crate) details: bool,
    pub(crate) tries: Option<u64>,
    pub(crate) dummy: Option<u64>,
    /// The place of a session among the words.
    pub(crate) session: Option<usize>,
    pub(crate) waiting: Waiting,
}

// How many words stand before the first of these, where there is one.
fn wish_place(options: &[String]) -> Option<usize>
    ensures place { result ≡ position is_wish_word options.now }
    ensures within { IfSome result (λ before. before ≤ length options.now) }
{
    options.iter().position(|word| {
        word.as_str() == "--tries"
            || word.as_str() == "--session"
            || word.as_str() == "--details"
            || word.as_str() == "--dummy"
    })
}

fn unasked() -> Asked
    ensures { result ≡ unasked }
{
    Asked {
        details: false,
        tries: None,
        dummy: None,
        session: None,
        waiting: Waiting::Nothing,
    }
}

// A word that asks for something, where it wasn't asked for yet.
fn word_read(word: &str, asked: Asked) -> Option<Asked>
    ensures { result ≡ word_read word.now asked }
{
    let mut asked = asked;
    if word == "--details" && !asked.details {
        asked.details = true;
    } else if word == "--tries" && asked.tries.is_none() {
        asked.waiting = Waiting::Tries;
    } else if word == "--dummy" && asked.dummy.is_none() {
        asked.waiting = Waiting::Dummy;
    } else if word == "--session" && asked.session.is_none() {
        asked.waiting = Waiting::Session;
    } else {
        return None;
    }
    Some(asked)
}

// A number of tries.
fn tries_in(number: &str) -> Option<u64>
    ensures { result ≡ tries_in number.now }
{
    let tries = read_short_number(number)?;
    if 0 < tries && tries <= MOST_TRIES {
        Some(tries)
    } else {
        None
    }
}

// A number of tries that was waited for.
fn tries_read(word: &str, asked: Asked) -> Option<Asked>
    ensures { result ≡ option_map (with_tries asked) (tries_in word.now) }
{
    let tries = tries_in(word)?;
    Some(Asked {
        tries: Some(tries),
        waiting: Waiting::Nothing,
        ..asked
    })
}

// A serial that was waited for.
fn dummy_read(word: &str, asked: Asked) -> Option<Asked>
    ensures { result ≡ option_map (with_dummy asked) (number_of word.now) }
{
    let dummy = read_number(word.as_bytes())?;
    Some(Asked {
        dummy: Some(dummy),
        waiting: Waiting::Nothing,
        ..asked
    })
}

// The word at this place: a value that is waited for, or one that asks.
fn one_read(place: usize, word: &str, asked: Asked) -> Option<Asked>
    ensures { result ≡ one_read place word.now asked }
{
    match asked.waiting {
        Waiting::Nothing => word_read(word, asked),
        Waiting::Tries => tries_read(word, asked),
        Waiting::Dummy => dummy_read(word, asked),
        Waiting::Session => Some(Asked {
            session: Some(place),
            waiting: Waiting::Nothing,
            ..asked
        }),
    }
}

// The words, of which the first stands behind so many.
fn all_read(before: usize, words: &[String]) -> Option<Asked>
    requires { before + length words.now < 2 ^ 64 }
    ensures { result ≡ all_read (before + 1) (texts_of words.now) unasked }
{
    let mut asked = unasked();
    for i in 0..words.len() {
        asked = one_read(before + 1 + i, words[i].as_str(), asked)?;
    }
    Some(asked)
}

fn wishes_of(asked: Asked) -> Wishes
    ensures { result ≡ wishes_of asked }
{
    Wishes {
        details: asked.details,
        tries: asked.tries.unwrap_or(1),
        dummy: asked.dummy,
    }
}

// A client's call that is made with these wishes.
fn with_asked(asked: Asked, deployment: Deployment) -> Option<Deployment>
    ensures { result ≡ with_asked asked deployment }
{
    match deployment {
        Deployment::Client {
            site,
            keys,
            call,
            hosts,
            until,
        } => Some(Deployment::ClientTries {
            site,
            keys,
            call,
            hosts,
            wishes: wishes_of(asked),
            until,
        }),
        _ => None,
    }
}

// A client's call whose session stands at this place among the words, with details or without.
fn with_session(details: bool, session: usize, deployment: Deployment) -> Option<Deployment>
    ensures { result ≡ with_session details session deployment }
{
    match deployment {
        Deployment::Client {
            site,
            keys,
            call,
            hosts,
            until,
        } => Some(Deployment::ClientSession {
            site,
            keys,
            call,
            hosts,
            details,
            session,
            until,
        }),
        _ => None,
    }
}

// The deployment with what is asked for. Who submits a session makes no call again, and needs no
// dummy.
fn by_session(asked: Asked, deployment: Deployment) -> Option<Deployment>
    ensures { result ≡ by_session asked asked.session deployment }
{
    match asked.session {
        Some(session) => {
            if asked.tries.is_none() && asked.dummy.is_none() {
                with_session(asked.details, session, deployment)
            } else {
                None
            }
        }
        None => with_asked(asked, deployment),
    }
}

fn waits_for_none(waiting: Waiting) -> bool
    ensures { result ≡ waits_for_none waiting }
{
    match waiting {
        Waiting::Nothing => true,
        Waiting::Tries | Waiting::Dummy | Waiting::Session => false,
    }
}

// The deployment with what these words ask for, of which the first stands behind so many.
fn with_wishes(before: usize, words: &[String], deployment: Deployment) -> Option<Deployment>
    requires { before + length words.now < 2 ^ 64 }
    ensures { result ≡ with_wishes before (texts_of words.now) deployment }
{
    let asked = all_read(before, words)?;
    if waits_for_none(asked.waiting) {
        by_session(asked, deployment)
    } else {
        None
    }
}

/// The words behind `node`, `client` or `show`. Behind all others of a client may stand, each once,
/// `--details`, `--tries N` and `--dummy N`, or `--details` and `--session HEX`.
pub(crate) fn read_wished(word: &str, options: &[String]) -> Option<Deployment>
    ensures { result ≡ wished (hosted (run_called word.now)) (texts_of options.now) }
{
    let Some(before) = wish_place(options) else {
        return read_run(word, options);
    };
    let (front, behind) = options.split_at(before);
    let deployment = read_run(word, front)?;
    with_wishes(before, behind, deployment)
}
