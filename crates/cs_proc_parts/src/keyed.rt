//! Objects beside their keys.
ghost use Rattle.std.specs.Prelude.{◌≡◌, length, map, take, drop, IfOk};
ghost use Rattle.cs_eval_values.specs.Lending.{lent_object};
ghost use Rattle.cs_base.specs.Lists.{is_empty};

use cs_base::{Memory, Sequence};
use cs_eval_values::Objects;
use cs_tx_value::{Digest, Encoded, Object};
use std::alloc::Global;
use std::marker::Model;

/// Objects beside their keys, which are lent. Contracts see their list.
#[derive(Drop)]
pub struct Keyed<'a> {
    items: &'a [(Digest, Object)],
}

impl<'a> Model for Keyed<'a> {
    ghost use Rattle.std.specs.Prelude.{List};
    ghost use Rattle.cs_tx_types.specs.Transaction.{Keyed as Beside};
    ghost use Rattle.cs_proc_parts.specs.Coding.{keyed_code};

    ghost Value = { List Beside };

    ghost coded = { keyed_code };

    ghost view = { λ s. s.items.now };
}

impl<'a> Keyed<'a> {
    /// Those of a list.
    pub fn new(items: &'a [(Digest, Object)]) -> Keyed<'a>
        ensures { result ≡ items.now }
    {
        Keyed { items }
    }

    /// The number of objects.
    pub fn len(&self) -> usize
        ensures { result ≡ length self.now }
    {
        self.items.len()
    }

    /// Whether there is none.
    pub fn is_empty(&self) -> bool
        ensures { result ≡ is_empty self.now }
    {
        match self.items {
            [] => true,
            [_, ..] => false,
        }
    }

    /// The objects without their keys.
    pub fn objects(&self) -> Objects<'a>
        ensures { result ≡ map lent_object self.now }
    {
        Objects::keyed(self.items)
    }

    /// Those behind so many.
    pub fn behind(&self, count: usize) -> Keyed<'a>
        ensures { result ≡ drop count self.now }
    {
        Keyed {
            items: self.items.split_at(count.min(self.items.len())).1,
        }
    }

    /// A copy of so many at the front.
    pub fn copy_front(
        &self,
        alloc: Global,
        count: usize,
    ) -> Result<Sequence<(Digest, Object)>, Memory>
        ensures { IfOk result (λ copied. copied ≡ take count self.now) }
    {
        copy_all(alloc, self.items.split_at(count.min(self.items.len())).0)
    }
}

fn copy_all(alloc: Global, items: &[(Digest, Object)]) -> Result<Sequence<(Digest, Object)>, Memory>
    ensures { IfOk result (λ copied. copied ≡ items.now) }
{
    let mut copied = Sequence::new(alloc);
    for item in items {
        copied.push(item.copy(alloc)?)?;
    }
    Ok(copied)
}
