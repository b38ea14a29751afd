//! Datagrams of one size, sealed and opened.
use cs_base::{CLIENT_SHARD, Memory, NodeId, Sequence};
use cs_tx_types::{Session, Trace, Tx};
use cs_tx_value::{Digest, Name, Value};
use cs_wire::{Keys, open, seal};
use cs_wire_message::Message;
use std::alloc::Global;

const NODE: NodeId = NodeId { shard: 0, index: 0 };

const CLIENT: NodeId = NodeId {
    shard: CLIENT_SHARD,
    index: 0,
};

/// The most bytes of a text.
const TEXT: usize = 256;

/// The most parameters of a trace.
const PARAMETERS: u8 = 16;

// Texts of so many zeros together, each as long as can be, and at most 16 of them.
fn texts(alloc: Global, bytes: usize) -> Result<Sequence<Value>, Memory> {
    let mut texts = Sequence::new(alloc);
    let mut left = bytes;
    for _ in 0..PARAMETERS {
        let zeros = [0; TEXT];
        let text = &zeros[..left.min(TEXT)];
        if text.is_empty() {
            break;
        }
        texts.push(Value::Bytes(Sequence::from_vec(Vec::from_slice(alloc, text)?)))?;
        left = left.saturating_sub(TEXT);
    }
    Ok(texts)
}

// A trace of this method and these parameters.
fn trace(alloc: Global, method: Name, parameters: Sequence<Value>) -> Trace {
    Trace {
        contract: [7; 32],
        method,
        inputs: Sequence::new(alloc),
        references: Sequence::new(alloc),
        parameters,
        outputs: Sequence::new(alloc),
        returns: Sequence::new(alloc),
        deps: Sequence::new(alloc),
    }
}

// A Submit of a session of 50 bytes and these texts, which have 3 bytes more each.
fn submit(alloc: Global, bytes: u32) -> Result<Message, Memory> {
    let method = Name::from_vec(Vec::from_slice(alloc, b"m")?);
    let parameters = texts(alloc, bytes as usize)?;
    let mut traces = Sequence::new(alloc);
    traces.push(trace(alloc, method, parameters))?;
    Ok(Message::Submit(Session {
        tx: Tx { traces },
        number: 0,
        dummies: Sequence::new(alloc),
    }))
}

// The keys of a name with one peer, where they can be made.
fn keys(alloc: Global, me: NodeId, peer: NodeId, to: Digest, from: Digest) -> Option<Keys> {
    let list = [(peer, to, from)];
    Keys::from_list(alloc, me, list.as_slice(), 1).ok()
}

// The client's datagram with the message for the node, where it can be sealed.
fn datagram(alloc: Global, client: &Keys, message: &Message) -> Option<Vec<u8>> {
    if !message.fits(client.version()) {
        return None;
    }
    let mut bytes = Vec::new(alloc);
    seal(alloc, client, NODE, message, &mut bytes).ok()?;
    Some(bytes)
}

/// Seals a message with so many bytes of text so many times: the number of times that it could be.
pub fn seal_often(alloc: Global, bytes: u32, count: u32) -> Result<u32, Memory> {
    let message = submit(alloc, bytes)?;
    let Some(client) = keys(alloc, CLIENT, NODE, [1; 32], [2; 32]) else {
        return Ok(0);
    };
    let mut done = 0u32;
    for _ in 0..count {
        if datagram(alloc, &client, &message).is_some() {
            done = done.saturating_add(1);
        }
    }
    Ok(done)
}

// How often the node opens the datagram in so many times.
fn openings(node: &Keys, datagram: &[u8], count: u32) -> u32 {
    let mut done = 0u32;
    for _ in 0..count {
        if open(node, datagram).is_ok() {
            done = done.saturating_add(1);
        }
    }
    done
}

/// Opens a datagram with so many bytes of text so many times: the number of times that it could be.
pub fn open_often(alloc: Global, bytes: u32, count: u32) -> Result<u32, Memory> {
    let message = submit(alloc, bytes)?;
    let client = keys(alloc, CLIENT, NODE, [1; 32], [2; 32]);
    let node = keys(alloc, NODE, CLIENT, [2; 32], [1; 32]);
    let (Some(client), Some(node)) = (client, node) else {
        return Ok(0);
    };
    match datagram(alloc, &client, &message) {
        Some(datagram) => Ok(openings(&node, &datagram, count)),
        None => Ok(0),
    }
}
