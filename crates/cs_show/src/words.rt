//! What nodes say of a key, and what is believed of it.
ghost use Rattle.std.specs.Prelude.{◌≡◌, ◌==◌, Some, slice_set, option_copied, IfOk, if◌then◌else◌};
ghost use Rattle.cs_base.specs.declared.version.Version.{Version};
ghost use Rattle.cs_wire_message.specs.Message.{MessageFits};
ghost use Rattle.cs_show.specs.Words.{same_key, line_in, is_word, sayers, first_said};

use crate::lines::state_line;
use cs_base::{Key, Memory, NodeId};
use cs_io::Text;
use cs_wire::Message;
use std::alloc::Global;

fn same_key(a: &Key, b: &Key) -> bool
    ensures { result ≡ same_key a.now b.now }
{
    match a {
        Key::Object(name) => match b {
            Key::Object(other) => *name == *other,
            Key::Dummy(_, _) => false,
        },
        Key::Dummy(shard, serial) => match b {
            Key::Object(_) => false,
            Key::Dummy(other, number) => *shard == *other && *serial == *number,
        },
    }
}

/// The line of what a message tells of the key, if anything.
pub fn line_in(alloc: Global, key: &Key, message: &Message) -> Result<Option<Text>, Memory>
    requires { (version : Version) × MessageFits version message.now }
    ensures { IfOk result (λ line. line ≡ line_in key.now message.now) }
{
    match message {
        Message::Told { key: other, state } => {
            if same_key(key, other) {
                Ok(Some(Text::from_string(state_line(alloc, state)?)))
            } else {
                Ok(None)
            }
        }
        _ => Ok(None),
    }
}

/// Puts the word of a node of the shard in the place of its last one.
pub fn put_word(words: &mut Vec<Option<Text>>, shard: u16, from: NodeId, line: Text)
    ensures { words.new.items ≡ (if from.shard == shard
        then slice_set words.old.items from.index (Some line) else words.old.items) }
{
    if from.shard == shard {
        if let Some(word) = words.get_mut(usize::from(from.index)) {
            *word = Some(line);
        }
    }
}

fn is_word(line: &Text, word: &Option<Text>) -> bool
    ensures { result ≡ is_word line.now word.now }
{
    match word {
        Some(other) => line.as_str() == other.as_str(),
        None => false,
    }
}

// How many of the words are this line.
fn sayers(line: &Text, words: &[Option<Text>]) -> usize
    ensures { result ≡ sayers line.now words.now }
{
    let mut count = 0;
    for word in words {
        count += usize::from(is_word(line, word));
    }
    count
}

/// The first of the words that more than f of them are.
pub fn first_said(f: u16, words: &[Option<Text>]) -> Option<&Text>
    ensures { option_copied result ≡ first_said f words.now words.now }
{
    for word in words {
        if let Some(line) = word {
            if sayers(line, words) > usize::from(f) {
                return Some(line);
            }
        }
    }
    None
}
