//! Versions of what the nodes of a deployment order and write.
ghost use Rattle.std.specs.Prelude.{◌≡◌};
ghost use Rattle.cs_base.specs.Version.{IsVersion, number_of, version_of};

/// How entries are made and written.
#[derive(Clone, Copy, Debug, PartialEq, Eq)]
pub enum Version {
    /// An entry is one action.
    One,
    /// An entry is a batch of up to 32 actions.
    Two,
}

impl Version {
    /// The version of this number.
    pub fn of(number: u8) -> Version
        requires { IsVersion number }
        ensures { result ≡ version_of number }
    {
        if number == 1 {
            Version::One
        } else {
            Version::Two
        }
    }

    /// Its number.
    pub fn number(self) -> u8
        ensures { result ≡ number_of self }
    {
        match self {
            Version::One => 1,
            Version::Two => 2,
        }
    }
}
