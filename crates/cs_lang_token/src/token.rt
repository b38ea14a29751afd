//! Tokens of a text.
ghost use Rattle.std.specs.Prelude.{◌≡◌, ◌∷◌, []};
ghost use Rattle.cs_lang_token.specs.Kinds.{is};

use crate::kind::Kind;
use cs_base::Sequence;

/// A token: what it is, the number that it spells, the characters of a name or the bytes of a byte
/// text, and the offset at which it stands. What a token of its kind doesn't spell is 0 or empty.
#[derive(Drop)]
pub struct Token {
    pub kind: Kind,
    pub number: u64,
    pub bytes: Sequence<u8>,
    pub place: usize,
}

impl Token {
    /// Whether it is of the kind.
    pub fn is(&self, kind: Kind) -> bool
        ensures { result ≡ is (kind ∷ []) self.now }
    {
        self.kind.code() == kind.code()
    }

    /// Whether it is of one of the kinds.
    pub fn is_any(&self, kinds: &[Kind]) -> bool
        ensures { result ≡ is kinds.now self.now }
    {
        match kinds {
            [] => false,
            [kind, others @ ..] => self.is(*kind) || self.is_any(others),
        }
    }
}

/// Bytes that a text spells, as a name's characters, and the offset at which they stand.
#[derive(Drop)]
pub struct Text {
    pub bytes: Sequence<u8>,
    pub place: usize,
}

/// A number that a text spells, and the offset at which it stands.
#[derive(Clone, Copy, Debug, PartialEq, Eq)]
pub struct Number {
    pub value: u64,
    pub place: usize,
}
