//! The words that children are started with.
ghost use Rattle.std.specs.Prelude.{◌≡◌, IfOk, map, string_bytes};
ghost use Rattle.std.specs.Fmt.{decimal};
ghost use Rattle.cs_spawn.specs.Words.{node_words, client_words, node_title, client_title, child_end_line};

use cs_base::{CLIENT_SHARD, Memory, NodeId};
use cs_config::{Plan, key_file};
use std::alloc::Global;

// The client that makes each call.
const CALLER: NodeId = NodeId {
    shard: CLIENT_SHARD,
    index: 0,
};

// How many turns each child takes.
fn turns_text(alloc: Global, plan: &Plan) -> Result<String, Memory>
    ensures { IfOk result (λ text. string_bytes text ≡ decimal plan.now.turns) }
{
    Ok(format!(in alloc; "{}", plan.turns)?)
}

/// The words of a node.
pub fn node_words(alloc: Global, plan: &Plan, me: NodeId) -> Result<Vec<String>, Memory>
    ensures { IfOk result (λ words. map string_bytes words.items ≡ node_words plan.now me) }
{
    let mut words = Vec::new(alloc);
    words.push(String::from_str(alloc, "node")?)?;
    words.push(String::from_str(alloc, plan.site.as_str())?)?;
    words.push(key_file(alloc, me)?)?;
    words.push(String::from_str(alloc, "--turns")?)?;
    words.push(turns_text(alloc, plan)?)?;
    Ok(words)
}

/// The words of a client that makes a call.
pub fn client_words(alloc: Global, plan: &Plan, call: &str) -> Result<Vec<String>, Memory>
    ensures { IfOk result (λ words.
        map string_bytes words.items ≡ client_words plan.now call.now) }
{
    let mut words = Vec::new(alloc);
    words.push(String::from_str(alloc, "client")?)?;
    words.push(String::from_str(alloc, plan.site.as_str())?)?;
    words.push(key_file(alloc, CALLER)?)?;
    words.push(String::from_str(alloc, call)?)?;
    words.push(String::from_str(alloc, "--turns")?)?;
    words.push(turns_text(alloc, plan)?)?;
    Ok(words)
}

/// What a node is called in its line.
pub fn node_title(alloc: Global, me: NodeId) -> Result<String, Memory>
    ensures { IfOk result (λ title. string_bytes title ≡ node_title me) }
{
    Ok(format!(in alloc; "node {me}")?)
}

/// What the client of a call is called in its line.
pub fn client_title(alloc: Global, call: usize) -> Result<String, Memory>
    ensures { IfOk result (λ title. string_bytes title ≡ client_title call) }
{
    Ok(format!(in alloc; "client {call}")?)
}

/// The line of a child that has ended.
pub fn end_line(alloc: Global, title: &str, status: u8) -> Result<String, Memory>
    ensures { IfOk result (λ line. string_bytes line ≡ child_end_line title.now status) }
{
    Ok(format!(in alloc; "{title} ended {status}\n")?)
}
