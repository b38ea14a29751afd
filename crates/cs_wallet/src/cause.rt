//! Why a wallet's file isn't taken.
ghost use Rattle.std.specs.Prelude.{◌≡◌};
ghost use Rattle.cs_wallet.specs.Refusals.{cause_text, unread_as};

use crate::error::FileError;

/// Why a wallet's file isn't taken.
#[derive(Clone, Copy, Debug, PartialEq, Eq)]
pub enum Cause {
    /// The store failed.
    Fault,
    /// There is no file of this name.
    Absent,
    /// It has more than `MOST_WALLET` bytes.
    TooLong,
    /// Its bytes are no TOML.
    Toml,
    /// `seed` is missing, of another type, or unreadable.
    Seed,
    /// `used` is missing, of another type, or unreadable.
    Used,
    /// `used` is out of its range.
    LimitUsed,
}

/// That the file isn't taken, and why, unless memory ran out.
#[derive(Clone, Copy, Debug, PartialEq, Eq)]
pub enum Untaken {
    Refused(Cause),
    Memory,
}

impl Cause {
    /// What is told of it.
    pub fn text(self) -> &'static str
        ensures { result.now ≡ cause_text self }
    {
        match self {
            Cause::Fault => "fault",
            Cause::Absent => "absent",
            Cause::TooLong => "long",
            Cause::Toml => "toml",
            Cause::Seed => "field seed",
            Cause::Used => "field used",
            Cause::LimitUsed => "limit used",
        }
    }
}

/// That a file can't be read.
pub(crate) fn unread(error: FileError) -> Untaken
    ensures { result ≡ unread_as error }
{
    match error {
        FileError::Toml => Untaken::Refused(Cause::Toml),
        FileError::Seed => Untaken::Refused(Cause::Seed),
        FileError::Used => Untaken::Refused(Cause::Used),
        FileError::LimitUsed => Untaken::Refused(Cause::LimitUsed),
        FileError::Memory => Untaken::Memory,
    }
}
