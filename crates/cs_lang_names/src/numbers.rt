//! Numbers of names.
ghost use Rattle.std.specs.Prelude.{◌≡◌, length, Some, IfSome};
ghost use Rattle.cs_lang_names.specs.Numbering.{number_of};

use cs_base::{Memory, Sequence};
use cs_lang_token::MOST_TEXT;
use std::alloc::Global;
use std::marker::Model;

/// The names of a contract, of which no two are equal: the number of one is its place. Beside each
/// offset of the text at which a name stands is kept which one that is, so that its number is
/// found by one comparison.
#[derive(Drop)]
pub struct Numbers {
    names: Sequence<Sequence<u8>>,
    places: Vec<u16>,
}

impl Model for Numbers {
    ghost use Rattle.std.specs.Prelude.{ℕ, List};
    ghost use Rattle.std.specs.Coded.{coded_list, coded_ℕ};
    ghost use Rattle.cs_lang_names.specs.Numbering.{AreDistinct};

    ghost Value = { List (List ℕ) };

    ghost coded = { coded_list (coded_list coded_ℕ) };

    ghost view = { λ s. s.names };

    ghost invariant = { λ s. AreDistinct s.names };
}

/// The number of the first name that is this one.
fn walked(names: &[Sequence<u8>], name: &[u8]) -> Option<usize>
    ensures { result ≡ number_of name.now names.now }
{
    for (i, other) in names.iter().enumerate() {
        if other.as_slice() == name {
            return Some(i);
        }
    }
    None
}

impl Numbers {
    /// No names, with room for those of a text so long.
    pub(crate) fn new(alloc: Global, length: usize) -> Result<Numbers, Memory> {
        let mut places = Vec::new(alloc);
        places.resize(length.min(MOST_TEXT), 0)?;
        Ok(Numbers {
            names: Sequence::new(alloc),
            places,
        })
    }

    /// The number of names.
    pub fn len(&self) -> usize
        ensures { result ≡ length self.now }
    {
        self.names.len()
    }

    /// The name that is kept beside an offset, where it is this one.
    fn told(&self, name: &[u8], offset: usize) -> Option<usize>
        ensures { IfSome result (λ number. Some number ≡ number_of name.now self.now) }
    {
        let number = usize::from(*self.places.as_slice().get(offset)?);
        if self.names.as_slice().get(number)?.as_slice() == name {
            return Some(number);
        }
        None
    }

    /// The number of a name, which stands at this offset of the text. Where it doesn't stand there,
    /// it is searched for.
    pub fn number(&self, name: &[u8], offset: usize) -> Option<usize>
        ensures { result ≡ number_of name.now self.now }
    {
        match self.told(name, offset) {
            Some(number) => Some(number),
            None => walked(self.names.as_slice(), name),
        }
    }

    /// The number of a name, which has one from now on.
    fn numbered(&mut self, alloc: Global, name: &[u8]) -> Result<usize, Memory> {
        match walked(self.names.as_slice(), name) {
            Some(number) => Ok(number),
            None => {
                let number = self.names.len();
                let copied = Vec::from_slice(alloc, name)?;
                self.names.push(Sequence::from_vec(copied))?;
                Ok(number)
            }
        }
    }

    /// Keeps beside an offset that this name stands there. It has a number from now on.
    pub(crate) fn keep(&mut self, alloc: Global, name: &[u8], offset: usize) -> Result<(), Memory> {
        let number = self.numbered(alloc, name)?;
        if offset < self.places.len() {
            if let Ok(number) = u16::try_from(number) {
                self.places[offset] = number;
            }
        }
        Ok(())
    }
}
