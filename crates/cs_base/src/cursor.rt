//! Reading fields from the front of a slice.
ghost use Rattle.std.specs.Prelude.{◌≡◌, IfOk, OnErr, length};
ghost use Rattle.std.specs.Int.{w8, w16, w32, w64};
ghost use Rattle.cs_base.specs.Fields.{Reads, number_at, bytes_at};

use std::marker::Model;

/// Fewer bytes are left than the field has. The cursor has not moved.
#[derive(Clone, Copy, Debug, PartialEq, Eq)]
pub struct Short;

/// What is left of a slice, which fields are read from the front of.
#[derive(Drop)]
pub struct Cursor<'a> {
    rest: &'a [u8],
}

impl<'a> Model for Cursor<'a> {
    ghost use Rattle.std.specs.Prelude.{List, ℕ};

    ghost Value = { List ℕ };

    ghost view = { λ c. c.rest.now };
}

impl<'a> Cursor<'a> {
    /// A cursor before the first byte.
    pub fn new(bytes: &'a [u8]) -> Cursor<'a>
        ensures { result ≡ bytes.now }
    {
        Cursor { rest: bytes }
    }

    /// The number of bytes left.
    pub fn len(&self) -> usize
        ensures { result ≡ length self.now }
    {
        self.rest.len()
    }

    /// The next byte.
    pub fn u8(&mut self) -> Result<u8, Short>
        ensures { Reads result self.old self.new (number_at w8 self.old) }
    {
        let [first, rest @ ..] = self.rest else {
            return Err(Short);
        };
        let value = *first;
        self.rest = rest;
        Ok(value)
    }

    /// The next two bytes as a number, its highest byte first.
    pub fn u16(&mut self) -> Result<u16, Short>
        ensures { Reads result self.old self.new (number_at w16 self.old) }
    {
        if self.rest.len() < 2 {
            return Err(Short);
        }
        let (front, rest) = self.rest.split_at(2);
        self.rest = rest;
        Ok(u16::from_be_bytes([front[0], front[1]]))
    }

    /// The next four bytes as a number, its highest byte first.
    pub fn u32(&mut self) -> Result<u32, Short>
        ensures { Reads result self.old self.new (number_at w32 self.old) }
    {
        if self.rest.len() < 4 {
            return Err(Short);
        }
        let (front, rest) = self.rest.split_at(4);
        self.rest = rest;
        Ok(u32::from_be_bytes([front[0], front[1], front[2], front[3]]))
    }

    /// The next eight bytes as a number, its highest byte first.
    pub fn u64(&mut self) -> Result<u64, Short>
        ensures { Reads result self.old self.new (number_at w64 self.old) }
    {
        if self.rest.len() < 8 {
            return Err(Short);
        }
        let (front, rest) = self.rest.split_at(8);
        self.rest = rest;
        Ok(u64::from_be_bytes([
            front[0], front[1], front[2], front[3], front[4], front[5], front[6], front[7],
        ]))
    }

    /// The next `n` bytes, which stay where they are.
    pub fn take(&mut self, n: usize) -> Result<&'a [u8], Short>
        ensures found { IfOk result (λ taken. bytes_at n self.old ≡ Some (taken.now, self.new)) }
        ensures short { OnErr result ((bytes_at n self.old ≡ None) × (self.new ≡ self.old)) }
        ensures length { IfOk result (λ taken. length taken.now ≡ n) }
    {
        if self.rest.len() < n {
            return Err(Short);
        }
        let (front, rest) = self.rest.split_at(n);
        self.rest = rest;
        Ok(front)
    }
}
