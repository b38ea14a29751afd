//! The words of a node or a client, or of who looks a key up: the files, how long it runs, and where the
//! hosts file stands.
ghost use Rattle.std.specs.Prelude.{◌≡◌, ◌+◌, ◌^◌, ◌<◌, ◌≤◌, ◌∷◌, ◌++◌, [], true, IfSome, length};
ghost use Rattle.std.specs.List.{position};
ghost use Rattle.cs_cli.specs.Words.{texts_of};
ghost use Rattle.cs_cli.specs.Deployed.{word_at, is_file, are_files, is_limit, until_in, node_deployment, node_called, client_at, client_called, show_at, show_called, run_called, is_hosts_word, is_hosts_pair, without_two, place_among, StandsNear, with_hosts, hosted};

use crate::deployments::{Deployment, is_file, word_at};
use cs_io::{Until, read_short_number};
use cs_show::read_key;

fn are_files(a: &str, b: &str) -> bool
    ensures { result ≡ are_files a.now b.now }
{
    is_file(a) && is_file(b)
}

// Whether a word says, with the number behind it, how long a command runs.
fn is_limit(word: &str) -> bool
    ensures { result ≡ is_limit word.now }
{
    word == "--turns" || word == "--ticks"
}

// How long that is.
fn until_in(word: &str, number: &str) -> Option<Until>
    ensures { result ≡ until_in word.now number.now }
{
    match word {
        "--turns" => {
            let most = read_short_number(number)?;
            Some(Until::Turns(most))
        }
        "--ticks" => {
            let most = read_short_number(number)?;
            Some(Until::Ticks(most))
        }
        _ => None,
    }
}

fn node_at(site: usize, keys: usize, limit: &str, number: &str) -> Option<Deployment>
    ensures { result ≡ node_deployment site keys limit.now number.now }
{
    let until = until_in(limit, number)?;
    Some(Deployment::Node {
        site,
        keys,
        hosts: None,
        until,
    })
}

// The word at a place among these and, behind them, those, the first one at 0.
fn word_in<'a>(front: &'a [String], back: &'a [String], place: usize) -> &'a str
    ensures { result.now ≡ word_at (texts_of front.now ++ texts_of back.now) place }
{
    if place < front.len() {
        word_at(front, place)
    } else {
        word_at(back, place - front.len())
    }
}

// The words of a node, these and those.
fn node_of(front: &[String], back: &[String]) -> Option<Deployment>
    ensures called { result ≡ node_called (texts_of front.now ++ texts_of back.now) }
    ensures near { IfSome result StandsNear }
{
    if front.len() + back.len() != 4 {
        return None;
    }
    node_among(
        word_in(front, back, 0),
        word_in(front, back, 1),
        word_in(front, back, 2),
        word_in(front, back, 3),
    )
}

// The same of exactly so many words.
fn node_among(a: &str, b: &str, c: &str, d: &str) -> Option<Deployment>
    ensures called { result ≡ node_called (a.now ∷ b.now ∷ c.now ∷ d.now ∷ []) }
    ensures near { IfSome result StandsNear }
{
    if is_limit(c) && are_files(a, b) {
        node_at(1, 2, c, d)
    } else if is_limit(b) && are_files(a, d) {
        node_at(1, 4, b, c)
    } else if is_limit(a) && are_files(c, d) {
        node_at(3, 4, a, b)
    } else {
        None
    }
}

fn client_at(site: usize, keys: usize, call: usize, limit: &str, number: &str) -> Option<Deployment>
    ensures { result ≡ client_at site keys call limit.now number.now }
{
    let until = until_in(limit, number)?;
    Some(Deployment::Client {
        site,
        keys,
        call,
        hosts: None,
        until,
    })
}

// The words of a client, these and those.
fn client_of(front: &[String], back: &[String]) -> Option<Deployment>
    ensures called { result ≡ client_called (texts_of front.now ++ texts_of back.now) }
    ensures near { IfSome result StandsNear }
{
    if front.len() + back.len() != 5 {
        return None;
    }
    client_among(
        word_in(front, back, 0),
        word_in(front, back, 1),
        word_in(front, back, 2),
        word_in(front, back, 3),
        word_in(front, back, 4),
    )
}

// The same of exactly so many words.
fn client_among(a: &str, b: &str, c: &str, d: &str, e: &str) -> Option<Deployment>
    ensures called { result ≡ client_called (a.now ∷ b.now ∷ c.now ∷ d.now ∷ e.now ∷ []) }
    ensures near { IfSome result StandsNear }
{
    if is_limit(d) && are_files(a, b) && is_file(c) {
        client_at(1, 2, 3, d, e)
    } else if is_limit(c) && are_files(a, b) && is_file(e) {
        client_at(1, 2, 5, c, d)
    } else if is_limit(b) && are_files(a, d) && is_file(e) {
        client_at(1, 4, 5, b, c)
    } else if is_limit(a) && are_files(c, d) && is_file(e) {
        client_at(3, 4, 5, a, b)
    } else {
        None
    }
}

fn show_at(site: usize, keys: usize, word: &str, limit: &str, number: &str) -> Option<Deployment>
    ensures { result ≡ show_at site keys word.now limit.now number.now }
{
    let key = read_key(word.as_bytes())?;
    let until = until_in(limit, number)?;
    Some(Deployment::Show {
        site,
        keys,
        key,
        hosts: None,
        until,
    })
}

// The words of who looks a key up, these and those.
fn show_of(front: &[String], back: &[String]) -> Option<Deployment>
    ensures called { result ≡ show_called (texts_of front.now ++ texts_of back.now) }
    ensures near { IfSome result StandsNear }
{
    if front.len() + back.len() != 5 {
        return None;
    }
    show_among(
        word_in(front, back, 0),
        word_in(front, back, 1),
        word_in(front, back, 2),
        word_in(front, back, 3),
        word_in(front, back, 4),
    )
}

// The same of exactly so many words.
fn show_among(a: &str, b: &str, c: &str, d: &str, e: &str) -> Option<Deployment>
    ensures called { result ≡ show_called (a.now ∷ b.now ∷ c.now ∷ d.now ∷ e.now ∷ []) }
    ensures near { IfSome result StandsNear }
{
    if is_limit(d) && are_files(a, b) {
        show_at(1, 2, c, d, e)
    } else if is_limit(c) && are_files(a, b) {
        show_at(1, 2, e, c, d)
    } else if is_limit(b) && are_files(a, d) {
        show_at(1, 4, e, b, c)
    } else if is_limit(a) && are_files(c, d) {
        show_at(3, 4, e, a, b)
    } else {
        None
    }
}

// The words of one of these commands, these and those.
fn run_of(word: &str, front: &[String], back: &[String]) -> Option<Deployment>
    ensures called { result ≡ run_called word.now (texts_of front.now ++ texts_of back.now) }
    ensures near { IfSome result StandsNear }
{
    match word {
        "node" => node_of(front, back),
        "client" => client_of(front, back),
        "show" => show_of(front, back),
        _ => None,
    }
}

// How many words stand before `--hosts`, where it is among them.
fn hosts_place(options: &[String]) -> Option<usize>
    ensures place { result ≡ position is_hosts_word options.now }
    ensures within { IfSome result (λ before. before < length options.now) }
{
    options.iter().position(|word| word.as_str() == "--hosts")
}

// Whether `--hosts`, behind so many words, isn't the value of another option, and has a file.
fn is_hosts_pair(options: &[String], before: usize) -> bool
    requires { before < length options.now }
    ensures is { result ≡ is_hosts_pair (texts_of options.now) before }
    ensures within { result ≡ true → before + 2 ≤ length options.now }
{
    let option = word_at(options, before.saturating_sub(1));
    !is_limit(option) && is_file(word_at(options, before + 1))
}

// The words but for two, of which the first stands behind so many: those in front, and those behind.
fn around(options: &[String], before: usize) -> (&[String], &[String])
    requires { before + 2 ≤ length options.now }
    ensures { texts_of result.0.now ++ texts_of result.1.now ≡ without_two before (texts_of options.now) }
{
    let (front, _) = options.split_at(before);
    let (_, back) = options.split_at(before + 2);
    (front, back)
}

fn place_among(before: usize, place: usize) -> usize
    requires { place ≤ 5 }
    ensures { result ≡ place_among before place }
{
    if place <= before { place } else { place + 2 }
}

// The deployment with the hosts file that stands behind so many words and its option.
fn with_hosts(before: usize, deployment: Deployment) -> Deployment
    requires room { before + 2 < 2 ^ 64 }
    requires near { StandsNear deployment }
    ensures { result ≡ with_hosts before deployment }
{
    match deployment {
        Deployment::Node {
            site,
            keys,
            until,
            ..
        } => Deployment::Node {
            site: place_among(before, site),
            keys: place_among(before, keys),
            hosts: Some(before + 2),
            until,
        },
        Deployment::Client {
            site,
            keys,
            call,
            until,
            ..
        } => Deployment::Client {
            site: place_among(before, site),
            keys: place_among(before, keys),
            call: place_among(before, call),
            hosts: Some(before + 2),
            until,
        },
        Deployment::Show {
            site,
            keys,
            key,
            until,
            ..
        } => Deployment::Show {
            site: place_among(before, site),
            keys: place_among(before, keys),
            key,
            hosts: Some(before + 2),
            until,
        },
        other => other,
    }
}

/// The words behind `node`, `client` or `show`, with `--hosts FILE` among them or without.
pub(crate) fn read_run(word: &str, options: &[String]) -> Option<Deployment>
    ensures { result ≡ hosted (run_called word.now) (texts_of options.now) }
{
    let Some(before) = hosts_place(options) else {
        return run_of(word, options, &[]);
    };
    if !is_hosts_pair(options, before) {
        return None;
    }
    let (front, back) = around(options, before);
    let deployment = run_of(word, front, back)?;
    Some(with_hosts(before, deployment))
}
