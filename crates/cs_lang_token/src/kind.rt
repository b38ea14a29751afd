//! Kinds of tokens.
ghost use Rattle.std.specs.Prelude.{◌≡◌};
ghost use Rattle.cs_lang_token.specs.Kinds.{code};

/// What a token is. Each reserved word and each sign is a kind of its own.
#[derive(Clone, Copy, Debug, PartialEq, Eq)]
pub enum Kind {
    /// A name.
    Name,
    /// A decimal number.
    Number,
    /// A byte text.
    Bytes,
    /// `(`.
    Open,
    /// `)`.
    Close,
    /// `{`.
    OpenBlock,
    /// `}`.
    CloseBlock,
    /// `[`.
    OpenList,
    /// `]`.
    CloseList,
    /// `,`.
    Comma,
    /// `;`.
    Semicolon,
    /// `:`.
    Colon,
    /// `.`.
    Dot,
    /// `*`.
    Star,
    /// `=`.
    Becomes,
    /// `==`.
    Equal,
    /// `!=`.
    NotEqual,
    /// `<`.
    Less,
    /// `<=`.
    LessOrEqual,
    /// `>`.
    Greater,
    /// `>=`.
    GreaterOrEqual,
    /// `+`.
    Plus,
    /// `-`.
    Minus,
    /// `/`.
    Slash,
    /// `%`.
    Percent,
    /// `type`.
    Type,
    /// `method`.
    Method,
    /// `consumes`.
    Consumes,
    /// `reads`.
    Reads,
    /// `takes`.
    Takes,
    /// `creates`.
    Creates,
    /// `returns`.
    Returns,
    /// `procedure`.
    Procedure,
    /// `check`.
    Check,
    /// `let`.
    Let,
    /// `set`.
    Set,
    /// `if`.
    If,
    /// `else`.
    Else,
    /// `for`.
    For,
    /// `in`.
    In,
    /// `to`.
    To,
    /// `make`.
    Make,
    /// `call`.
    Call,
    /// `answer`.
    Answer,
    /// `and`.
    And,
    /// `or`.
    Or,
    /// `not`.
    Not,
    /// `true`.
    True,
    /// `false`.
    False,
    /// `empty`.
    Empty,
    /// `int`.
    IntKind,
    /// `bool`.
    BoolKind,
    /// `bytes`.
    BytesKind,
    /// `len`.
    Len,
    /// `sha256`.
    Sha256,
    /// `concat`.
    Concat,
    /// `called`.
    Called,
    /// `depint`.
    DepInt,
}

impl Kind {
    /// The number of the kind.
    pub fn code(self) -> u8
        ensures { result ≡ code self }
    {
        match self {
            Kind::Name => 0,
            Kind::Number => 1,
            Kind::Bytes => 2,
            Kind::Open => 3,
            Kind::Close => 4,
            Kind::OpenBlock => 5,
            Kind::CloseBlock => 6,
            Kind::OpenList => 7,
            Kind::CloseList => 8,
            Kind::Comma => 9,
            Kind::Semicolon => 10,
            Kind::Colon => 11,
            Kind::Dot => 12,
            Kind::Star => 13,
            Kind::Becomes => 14,
            Kind::Equal => 15,
            Kind::NotEqual => 16,
            Kind::Less => 17,
            Kind::LessOrEqual => 18,
            Kind::Greater => 19,
            Kind::GreaterOrEqual => 20,
            Kind::Plus => 21,
            Kind::Minus => 22,
            Kind::Slash => 23,
            Kind::Percent => 24,
            Kind::Type => 25,
            Kind::Method => 26,
            Kind::Consumes => 27,
            Kind::Reads => 28,
            Kind::Takes => 29,
            Kind::Creates => 30,
            Kind::Returns => 31,
            Kind::Procedure => 32,
            Kind::Check => 33,
            Kind::Let => 34,
            Kind::Set => 35,
            Kind::If => 36,
            Kind::Else => 37,
            Kind::For => 38,
            Kind::In => 39,
            Kind::To => 40,
            Kind::Make => 41,
            Kind::Call => 42,
            Kind::Answer => 43,
            Kind::And => 44,
            Kind::Or => 45,
            Kind::Not => 46,
            Kind::True => 47,
            Kind::False => 48,
            Kind::Empty => 49,
            Kind::IntKind => 50,
            Kind::BoolKind => 51,
            Kind::BytesKind => 52,
            Kind::Len => 53,
            Kind::Sha256 => 54,
            Kind::Concat => 55,
            Kind::Called => 56,
            Kind::DepInt => 57,
        }
    }
}
