//! Want of memory in the midst of a change.
ghost use Rattle.std.specs.Prelude.{◌≡◌, true, false, OnOk, OnErr};

use crate::Memory;
use std::marker::Model;

/// Whether the value beside it is whole: from the beginning of a change to its end it isn't. So
/// after a want of memory in the midst of a change it never is again, and whoever asks is told that
/// want again.
#[derive(Drop)]
pub struct Whole {
    is_whole: bool,
}

impl Model for Whole {
    ghost use Rattle.std.specs.Prelude.{Bool};

    ghost Value = { Bool };

    ghost view = { λ w. w.is_whole };
}

impl Whole {
    /// Of a value that is made.
    pub fn new() -> Whole
        ensures { result ≡ true }
    {
        Whole { is_whole: true }
    }

    /// Whether the value is whole.
    pub fn is_whole(&self) -> bool
        ensures { result ≡ self.now }
    {
        self.is_whole
    }

    /// Goes on only where the value is whole.
    pub fn check(&self) -> Result<(), Memory>
        ensures ok { OnOk result (self.now ≡ true) }
        ensures err { OnErr result (self.now ≡ false) }
    {
        if !self.is_whole {
            return Err(Memory);
        }
        Ok(())
    }

    /// The value is changed from here on.
    pub fn begin(&mut self) -> Result<(), Memory>
        ensures ok { OnOk result (self.old ≡ true) }
        ensures err { OnErr result (self.old ≡ false) }
        ensures changed { self.new ≡ false }
    {
        self.check()?;
        self.is_whole = false;
        Ok(())
    }

    /// The change is made.
    pub fn end(&mut self)
        ensures { self.new ≡ true }
    {
        self.is_whole = true;
    }
}
