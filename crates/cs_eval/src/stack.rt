//! A stack whose places are taken at once, which contracts see from its top.
ghost use Rattle.std.specs.Prelude.{◌≡◌, ◌+◌, ◌<◌, ◌≤◌, ◌∷◌, [], length, IfOk, OnOk, MatchOption};

use std::alloc::{AllocError, AllocFailed, Global};
use std::marker::Model;

/// A stack.
#[derive(Drop)]
pub struct Stack<T> {
    items: Vec<T>,
}

impl<T> Model for Stack<T> {
    ghost use Rattle.std.specs.Prelude.{reverse};
    ghost use Rattle.std.specs.Vec.{vec_capacity};
    ghost use Rattle.cs_eval.specs.Stacked.{Stacked, stacked_code};

    ghost Value = { Stacked T };

    ghost coded = { stacked_code T T.code };

    ghost view = { λ s. record { items = reverse s.items.items; most = vec_capacity s.items } };
}

impl<T> Stack<T> {
    /// With so many places.
    pub fn with_capacity(alloc: Global, most: usize) -> Result<Self, AllocError>
        ensures items { IfOk result (λ s. s.items ≡ []) }
        ensures most { IfOk result (λ s. s.most ≡ most) }
    {
        Ok(Stack {
            items: Vec::with_capacity(alloc, most)?,
        })
    }

    /// One more on top, for which there is a place.
    pub fn push(&mut self, item: T)
        requires { length self.old.items < self.old.most }
        ensures items { self.new.items ≡ item ∷ self.old.items }
        ensures most { self.new.most ≡ self.old.most }
    {
        self.items.push_reserved(item);
    }

    /// One more on top, with more places where none is free.
    pub fn push_growing(&mut self, item: T) -> Result<(), AllocFailed<T>>
        ensures items { OnOk result (self.new.items ≡ item ∷ self.old.items) }
        ensures most { self.old.most ≤ self.new.most }
    {
        self.items.push(item)
    }

    /// The top.
    pub fn pop(&mut self) -> Option<T>
        ensures items { MatchOption result
            ((self.old.items ≡ []) × (self.new.items ≡ []))
            (λ item. self.old.items ≡ item ∷ self.new.items) }
        ensures most { self.new.most ≡ self.old.most }
    {
        self.items.pop()
    }

    /// Makes room for so many more.
    pub fn reserve(&mut self, more: usize) -> Result<(), AllocError>
        ensures items { self.new.items ≡ self.old.items }
        ensures most { self.old.most ≤ self.new.most }
        ensures room { OnOk result (length self.new.items + more ≤ self.new.most) }
    {
        self.items.reserve(more)
    }
}
