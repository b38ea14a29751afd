//! The tokens that are left.
ghost use Rattle.std.specs.Prelude.{◌≡◌, ◌∷◌, ◌<◌, [], length, true, OnOk};
ghost use Rattle.cs_lang_token.specs.Kinds.{is};
ghost use Rattle.cs_lang_token.specs.Grammar.{begins};
ghost use Rattle.cs_lang_token.specs.Rules.{sign_at, name_token_at, bytes_token_at, number_token_at, room_of};
ghost use Rattle.cs_lang_token.specs.Answers.{ReaderGives, place_of};

use crate::kind::Kind;
use crate::token::{Number, Text, Token};
use cs_base::Sequence;
use std::alloc::{AllocError, AllocFailed, Global};
use std::marker::Model;

/// Why reading stopped.
#[derive(Clone, Copy, Debug, PartialEq, Eq)]
pub enum Stop {
    /// Memory ran out.
    Memory,
    /// No text goes on with the token at which the cursor stands.
    Syntax,
}

impl From<AllocError> for Stop {
    ghost use Rattle.std.specs.Prelude.{◌≡◌};
    ghost use Rattle.cs_lang_token.specs.declared.cursor.Stop.TheVariants.{Memory};

    ghost from_gives = { λ _ e. e ≡ Memory };

    fn from(_error: AllocError) -> Stop {
        Stop::Memory
    }
}

impl<T: Drop> From<AllocFailed<T>> for Stop {
    ghost use Rattle.std.specs.Prelude.{◌≡◌};
    ghost use Rattle.cs_lang_token.specs.declared.cursor.Stop.TheVariants.{Memory};

    ghost from_gives = { λ _ e. e ≡ Memory };

    fn from(_error: AllocFailed<T>) -> Stop {
        Stop::Memory
    }
}

/// The tokens that are left.
#[derive(Drop)]
pub struct Cursor<'a> {
    rest: &'a [Token],
}

impl<'a> Model for Cursor<'a> {
    ghost use Rattle.std.specs.Prelude.{List};
    ghost use Rattle.cs_lang_token.specs.declared.token.Token.{Token};

    ghost Value = { List Token };

    ghost view = { λ c. c.rest.now };
}

impl<'a> Cursor<'a> {
    /// All of these tokens.
    pub fn new(tokens: &'a [Token]) -> Self
        ensures { result ≡ tokens.now }
    {
        Cursor { rest: tokens }
    }

    /// How many tokens are left.
    pub fn len(&self) -> usize
        ensures { result ≡ length self.now }
    {
        self.rest.len()
    }

    /// The place of the next token, or the end.
    pub fn place(&self, end: usize) -> usize
        ensures { result ≡ place_of end self.now }
    {
        match self.rest {
            [] => end,
            [token, ..] => token.place,
        }
    }

    /// Whether the next token is of the kind.
    pub fn at(&self, kind: Kind) -> bool
        ensures { result ≡ begins (is (kind ∷ [])) self.now }
    {
        match self.rest {
            [] => false,
            [token, ..] => token.is(kind),
        }
    }

    /// Whether the next token is of one of the kinds.
    pub fn at_any(&self, kinds: &[Kind]) -> bool
        ensures { result ≡ begins (is kinds.now) self.now }
    {
        match self.rest {
            [] => false,
            [token, ..] => token.is_any(kinds),
        }
    }

    /// Passes the next token, which is of the kind, and gives its place.
    pub fn sign(&mut self, kind: Kind) -> Result<usize, Stop>
        ensures { ReaderGives result self.new (sign_at kind true self.old) }
    {
        match self.rest {
            [] => Err(Stop::Syntax),
            [token, rest @ ..] => {
                if !token.is(kind) {
                    return Err(Stop::Syntax);
                }
                self.rest = rest;
                Ok(token.place)
            }
        }
    }

    /// Passes the next token, which is of the kind and opens one more level, where so many may
    /// still be opened.
    pub fn open(&mut self, kind: Kind, left: u8) -> Result<usize, Stop>
        ensures gives { ReaderGives result self.new (sign_at kind (room_of left) self.old) }
        ensures room { OnOk result (0 < left) }
    {
        if left == 0 {
            return Err(Stop::Syntax);
        }
        self.sign(kind)
    }

    /// Passes the next token, which is a name.
    pub fn name(&mut self, alloc: Global) -> Result<Text, Stop>
        ensures { ReaderGives result self.new (name_token_at self.old) }
    {
        match self.rest {
            [] => Err(Stop::Syntax),
            [token, rest @ ..] => {
                if !token.is(Kind::Name) {
                    return Err(Stop::Syntax);
                }
                let bytes = Vec::from_slice(alloc, token.bytes.as_slice())?;
                self.rest = rest;
                Ok(Text {
                    bytes: Sequence::from_vec(bytes),
                    place: token.place,
                })
            }
        }
    }

    /// Passes the next token, which is a byte text.
    pub fn bytes(&mut self, alloc: Global) -> Result<Text, Stop>
        ensures { ReaderGives result self.new (bytes_token_at self.old) }
    {
        match self.rest {
            [] => Err(Stop::Syntax),
            [token, rest @ ..] => {
                if !token.is(Kind::Bytes) {
                    return Err(Stop::Syntax);
                }
                let bytes = Vec::from_slice(alloc, token.bytes.as_slice())?;
                self.rest = rest;
                Ok(Text {
                    bytes: Sequence::from_vec(bytes),
                    place: token.place,
                })
            }
        }
    }

    /// Passes the next token, which is a number.
    pub fn number(&mut self) -> Result<Number, Stop>
        ensures { ReaderGives result self.new (number_token_at self.old) }
    {
        match self.rest {
            [] => Err(Stop::Syntax),
            [token, rest @ ..] => {
                if !token.is(Kind::Number) {
                    return Err(Stop::Syntax);
                }
                self.rest = rest;
                Ok(Number {
                    value: token.number,
                    place: token.place,
                })
            }
        }
    }
}
