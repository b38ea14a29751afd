//! Names that stand among tokens.
ghost use Rattle.std.specs.Prelude.{◌≡◌, ◌<◌};
ghost use Rattle.cs_explain.specs.Notes.{is_name, is_between, make_step, make_between, is_made, passed_over, look_step, look_between, is_looked_at};

use cs_lang_token::{Kind, Token};

/// Whether a slot was made, and whether a `make` stands right before the next token.
#[derive(Clone, Copy)]
pub struct Making {
    pub behind: bool,
    pub made: bool,
}

/// Whether a name was looked at, and how many tokens are none that look at one.
#[derive(Clone, Copy)]
pub struct Looking {
    pub skip: u8,
    pub looked: bool,
}

fn is_name(name: &[u8], token: &Token) -> bool
    ensures { result ≡ is_name name.now token.now }
{
    token.is(Kind::Name) && token.bytes.as_slice() == name
}

fn is_between(low: usize, high: usize, token: &Token) -> bool
    ensures { result ≡ is_between low high token.now }
{
    low < token.place && token.place < high
}

fn make_step(name: &[u8], making: Making, token: &Token) -> Making
    ensures { result ≡ make_step name.now making token.now }
{
    Making {
        behind: token.is(Kind::Make),
        made: making.made || making.behind && is_name(name, token),
    }
}

fn make_between(low: usize, high: usize, name: &[u8], making: Making, token: &Token) -> Making
    ensures { result ≡ make_between low high name.now making token.now }
{
    if is_between(low, high, token) {
        make_step(name, making, token)
    } else {
        making
    }
}

/// Whether a `make` of the name stands between two places.
pub fn is_made(low: usize, high: usize, name: &[u8], tokens: &[Token]) -> bool
    ensures { result ≡ is_made low high name.now tokens.now }
{
    let mut making = Making {
        behind: false,
        made: false,
    };
    for token in tokens {
        making = make_between(low, high, name, making, token);
    }
    making.made
}

// How many tokens behind this one look at no name: behind `.` stands that of a field, and in
// `called(0, m)` that of a method.
fn passed_over(token: &Token) -> u8
    ensures { result ≡ passed_over token.now }
{
    if token.is(Kind::Dot) {
        1
    } else if token.is(Kind::Called) {
        4
    } else {
        0
    }
}

fn look_step(name: &[u8], looking: Looking, token: &Token) -> Looking
    ensures { result ≡ look_step name.now looking token.now }
{
    if looking.skip > 0 {
        return Looking {
            skip: looking.skip - 1,
            looked: looking.looked,
        };
    }
    Looking {
        skip: passed_over(token),
        looked: looking.looked || is_name(name, token),
    }
}

fn look_between(low: usize, high: usize, name: &[u8], looking: Looking, token: &Token) -> Looking
    ensures { result ≡ look_between low high name.now looking token.now }
{
    if is_between(low, high, token) {
        look_step(name, looking, token)
    } else {
        looking
    }
}

/// Whether an expression between two places is the name.
pub fn is_looked_at(low: usize, high: usize, name: &[u8], tokens: &[Token]) -> bool
    ensures { result ≡ is_looked_at low high name.now tokens.now }
{
    let mut looking = Looking {
        skip: 0,
        looked: false,
    };
    for token in tokens {
        looking = look_between(low, high, name, looking, token);
    }
    looking.looked
}
