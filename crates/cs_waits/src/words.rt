//! What nodes say of who used an object up.
ghost use Rattle.std.specs.Prelude.{◌≡◌, ◌<◌, slice_set, count_by};
ghost use Rattle.cs_waits.specs.Words.{word_of_state, word_on, word_in, is_use, tellers, user_in, is_said, is_told};

use cs_base::{Key, Sequence};
use cs_tx_types::State;
use cs_tx_value::Digest;
use cs_wire::Message;
use std::alloc::Global;
use std::mem;

/// What a node said of an object.
#[derive(Clone, Copy, Debug, PartialEq, Eq)]
pub enum Word {
    /// Nothing.
    Silent,
    /// That it knows of no session that used it up.
    Unused,
    /// That this session used it up.
    Used(Digest),
}

fn word_of_state(state: &State) -> Word
    ensures { result ≡ word_of_state state.now }
{
    match state {
        State::Inactive(session) => Word::Used(*session),
        State::Unknown | State::Active(_) | State::Locked(_, _) | State::Shared(_, _) => {
            Word::Unused
        }
    }
}

fn word_on(name: &Digest, key: &Key, state: &State) -> Option<Word>
    ensures { result ≡ word_on name.now key.now state.now }
{
    match key {
        Key::Object(told) => {
            if *name == *told {
                Some(word_of_state(state))
            } else {
                None
            }
        }
        Key::Dummy(_, _) => None,
    }
}

/// What a message says of the object of this name, if anything.
pub fn word_in(name: &Digest, message: &Message) -> Option<Word>
    ensures { result ≡ word_in name.now message.now }
{
    match message {
        Message::Told { key, state } => word_on(name, key, state),
        _ => None,
    }
}

/// Puts a word in the place of another, if there is one.
pub fn put_word(alloc: Global, words: &mut Sequence<Word>, place: usize, word: Word)
    ensures { words.new ≡ slice_set words.old place word }
{
    let mut kept = mem::replace(words, Sequence::new(alloc)).into_vec();
    if let Some(last) = kept.get_mut(place) {
        *last = word;
    }
    *words = Sequence::from_vec(kept);
}

fn is_use(session: &Digest, word: &Word) -> bool
    ensures { result ≡ is_use session.now word.now }
{
    match word {
        Word::Used(other) => *session == *other,
        Word::Silent | Word::Unused => false,
    }
}

// How many say that this session used it up.
fn tellers(session: &Digest, words: &[Word]) -> usize
    ensures { result ≡ tellers session.now words.now }
{
    let mut count = 0;
    for word in words {
        count += usize::from(is_use(session, word));
    }
    count
}

/// The first session of which more than f of them say that it used the object up.
pub fn user_in(f: u16, words: &[Word]) -> Option<Digest>
    ensures { result ≡ user_in f words.now }
{
    for word in words {
        if let Word::Used(session) = word {
            if tellers(session, words) > usize::from(f) {
                return Some(*session);
            }
        }
    }
    None
}

fn is_said(word: &Word) -> bool
    ensures { result ≡ is_said word.now }
{
    match word {
        Word::Silent => false,
        Word::Unused | Word::Used(_) => true,
    }
}

/// Whether more than f of them say anything.
pub fn is_told(f: u16, words: &[Word]) -> bool
    ensures { result ≡ is_told f words.now }
{
    let mut count = 0;
    for word in words {
        count += usize::from(is_said(word));
    }
    count > usize::from(f)
}
