//! Names of types and methods.
ghost use Rattle.std.specs.Prelude.{◌≡◌, IsTrue, ◌↔◌};
ghost use Rattle.std.specs.List.{list_all};
ghost use Rattle.cs_tx_value.specs.Name.{is_digit_code, is_letter_code, is_name_code as is_name_character, is_spelled};

use crate::encoded::Encoded;
use crate::form::FormError;
use cs_base::{Cursor, Memory, Writer};
use std::alloc::Global;
use std::marker::Model;

/// A name, which contracts see as the list of its characters' codes. One that fits has 1 to 32
/// letters, digits and `_`, and no digit first.
#[derive(Drop)]
pub struct Name {
    text: Vec<u8>,
}

impl Model for Name {
    ghost use Rattle.std.specs.Prelude.{List, ℕ};

    ghost Value = { List ℕ };

    ghost view = { λ n. n.text.items };
}

fn is_digit(code: u8) -> bool
    ensures { result ≡ is_digit_code code }
{
    code >= b'0' && code <= b'9'
}

fn is_letter(code: u8) -> bool
    ensures { result ≡ is_letter_code code }
{
    code >= b'A' && code <= b'Z' || code >= b'a' && code <= b'z' || code == b'_'
}

fn is_name_code(code: u8) -> bool
    ensures { result ≡ is_name_character code }
{
    is_letter(code) || is_digit(code)
}

fn are_name_codes(text: &[u8]) -> bool
    ensures { result ≡ list_all is_name_character text.now }
{
    text.iter().all(|code| is_name_code(*code))
}

fn is_name(text: &[u8]) -> bool
    ensures { result ≡ is_spelled text.now }
{
    match text {
        [] => false,
        [first, rest @ ..] => { is_letter(*first) && are_name_codes(rest) }
    }
}

impl Name {
    ghost use Rattle.std.specs.Prelude.{◌≡◌};

    pub fn from_vec(text: Vec<u8>) -> Name
        ensures { result ≡ text.items }
    {
        Name { text }
    }

    pub fn as_slice(&self) -> &[u8]
        ensures { result.now ≡ self.now }
    {
        self.text.as_slice()
    }
}

impl Encoded for Name {
    ghost use Rattle.cs_tx_value.specs.laws.Limits.{unlimited};
    ghost use Rattle.std.specs.Prelude.{◌≡◌, ◌≤◌, ◌∷◌, length, true};
    ghost use Rattle.cs_base.specs.Fields.{IsBytes};
    ghost use Rattle.cs_tx_value.specs.Name.{name_encoding, NameFits, name_at, is_spelled};
    ghost use Rattle.cs_tx_value.specs.laws.Name.{name_form};

    ghost encoding = { name_encoding };

    ghost Fits = { NameFits };

    ghost found_at = { name_at };

    ghost LIMIT = { 18446744073709551615 };

    const LIMIT: usize = usize::MAX;

    #[tactic(auto, unfolding(cs_base::specs::Fields::upto_at, cs_base::specs::Fields::tested_at))]
    fn read(alloc: Global, cursor: &mut Cursor<'_>) -> Result<Name, FormError> {
        let len = cursor.u8()?;
        if len > 32 {
            return Err(FormError::BadForm);
        }
        let text = cursor.take(len as usize)?;
        if !is_name(text) {
            return Err(FormError::BadForm);
        }
        Ok(Name::from_vec(Vec::from_slice(alloc, text)?))
    }

    #[tactic(auto, unfolding(cs_base::specs::Fields::upto_at, cs_base::specs::Fields::tested_at))]
    fn skip(cursor: &mut Cursor<'_>) -> Result<(), FormError> {
        let len = cursor.u8()?;
        if len > 32 {
            return Err(FormError::BadForm);
        }
        if !is_name(cursor.take(len as usize)?) {
            return Err(FormError::BadForm);
        }
        Ok(())
    }

    fn encode(&self, out: &mut Writer) -> Result<(), Memory> {
        let text = self.as_slice();
        out.u8(text.len() as u8)?;
        out.take(text)
    }

    fn fits(&self) -> bool {
        let text = self.as_slice();
        text.len() <= 32 && is_name(text)
    }

    fn room(&self, room: usize) -> Option<usize> {
        let room = room.checked_sub(1)?;
        room.checked_sub(self.as_slice().len())
    }

    fn copy(&self, alloc: Global) -> Result<Name, Memory> {
        Ok(Name::from_vec(Vec::from_slice(alloc, self.as_slice())?))
    }

    ghost form = { name_form };

    ghost short = { λ value fits lt. unlimited _ lt };
}
