//! Places of a text, as who reads it counts them.
ghost use Rattle.std.specs.Prelude.{◌≡◌};
ghost use Rattle.cs_types.specs.Positions.{position_at};

/// Lines and columns are counted from 1, columns in bytes.
#[derive(Clone, Copy, Debug, PartialEq, Eq)]
pub struct Position {
    pub line: usize,
    pub column: usize,
}

impl Position {
    ghost use Rattle.std.specs.Prelude.{◌<◌, ◌^◌};
    ghost use Rattle.cs_types.specs.Positions.{position_behind};

    // The position behind a byte that stands here.
    fn behind(self, byte: u8) -> Position
        requires line { self.line < 2 ^ 63 }
        requires column { self.column < 2 ^ 63 }
        ensures { result ≡ position_behind self byte }
    {
        if byte == b'\n' {
            return Position {
                line: self.line + 1,
                column: 1,
            };
        }
        Position {
            line: self.line,
            column: self.column + 1,
        }
    }
}

/// The position of the byte at this offset; at the text's length or beyond, that behind its last
/// byte.
pub fn position_at(text: &[u8], place: usize) -> Position
    ensures { result ≡ position_at text.now place }
{
    let mut position = Position { line: 1, column: 1 };
    let (before, _) = text.split_at(place.min(text.len()));
    for byte in before {
        position = position.behind(*byte);
    }
    position
}
