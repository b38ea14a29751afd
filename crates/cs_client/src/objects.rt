//! What nodes say of objects, and what is believed of it.
ghost use Rattle.std.specs.Prelude.{◌≡◌, ◌<◌, ℕ, length, slice_set, count_by, option_copied, IfOk};
ghost use Rattle.cs_tx_value.specs.Object.{ObjectFits};
ghost use Rattle.cs_tx_types.specs.State.{StateFits};
ghost use Rattle.cs_client.specs.Objects.{word_told, word_is, voices, believed_in};
ghost use Rattle.cs_client.specs.Kept.{WordFits, WordsFit};

use cs_base::{Key, Memory, Sequence};
use cs_tx_types::State;
use cs_tx_value::{Encoded, Object};
use std::alloc::Global;
use std::mem;

/// The object that is said of a key by its state: under a name one that is active or shared, of a
/// dummy one that is active.
pub fn word_told(key: &Key, state: State) -> Option<Object>
    requires { StateFits state }
    ensures word { result ≡ word_told key.now state }
    ensures fits { WordFits result }
{
    match state {
        State::Active(object) => Some(object),
        State::Shared(object, _) => match key {
            Key::Object(_) => Some(object),
            Key::Dummy(_, _) => None,
        },
        State::Unknown | State::Locked(_, _) | State::Inactive(_) => None,
    }
}

/// Puts a word in the place of another.
pub fn put_word<T: Drop>(alloc: Global, words: &mut Sequence<T>, place: usize, word: T)
    requires { place < length words.old }
    ensures { words.new ≡ slice_set words.old place word }
{
    let mut kept = mem::replace(words, Sequence::new(alloc)).into_vec();
    kept[place] = word;
    *words = Sequence::from_vec(kept);
}

/// An equal word.
pub fn copy_word(alloc: Global, word: &Option<Object>) -> Result<Option<Object>, Memory>
    ensures { IfOk result (λ copied. copied ≡ word.now) }
{
    match word {
        Some(object) => Ok(Some(object.copy(alloc)?)),
        None => Ok(None),
    }
}

// Whether a word is this object.
fn says(object: &Object, word: &Option<Object>) -> bool
    requires object { ObjectFits object.now }
    requires word { WordFits word.now }
    ensures { result ≡ word_is object.now word.now }
{
    match word {
        Some(other) => other.same(object),
        None => false,
    }
}

// How many of the words are this object.
fn voices(object: &Object, words: &[Option<Object>]) -> usize
    requires object { ObjectFits object.now }
    requires words { WordsFit words.now }
    ensures { result ≡ voices object.now words.now }
{
    let mut count = 0;
    for word in words {
        count += usize::from(says(object, word));
    }
    count
}

/// The first of the words that more than f of them are.
pub fn believed(f: u16, words: &[Option<Object>]) -> Option<&Object>
    requires { WordsFit words.now }
    ensures { option_copied result ≡ believed_in f words.now }
{
    for word in words {
        if let Some(object) = word {
            if voices(object, words) > usize::from(f) {
                return Some(object);
            }
        }
    }
    None
}
