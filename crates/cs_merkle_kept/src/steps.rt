//! Counting the joins.
ghost use Rattle.std.specs.Prelude.{◌≡◌, ◌+◌, ◌<◌};
ghost use Rattle.cs_merkle.specs.Tree.{node_hash};

use cs_hash::Digest;
use sha2::{Digest as Hasher, Sha256};
use std::marker::Model;
use std::sync::ledger::{Blank, Book, Ledger, Share};

// The byte before the hashes of two subtrees.
const NODE: u8 = 1;

fn join(left: &Digest, right: &Digest) -> Digest
    ensures { result ≡ node_hash left.now right.now }
{
    let mut hasher = Sha256::new();
    hasher.update([NODE]);
    hasher.update(left);
    hasher.update(right);
    hasher.finalize()
}

/// How many inner nodes were joined. It takes no bytes, and only a join changes it.
#[derive(Drop)]
pub struct Steps<L: Ledger> {
    book: Book<L>,
    share: Share<L>,
}

impl<L: Ledger> Model for Steps<L> {
    ghost use Rattle.std.specs.Prelude.{ℕ, ◌<◌};

    ghost Value = { ℕ };

    ghost view = { λ s. s.book.total };

    ghost invariant = { λ s. 0 < s.share.parts };
}

impl<L: Ledger> Steps<L> {
    /// Nothing was joined yet.
    pub fn new(blank: Blank) -> Steps<L>
        requires name { blank.name ≡ L.name }
        requires parts { blank.parts ≡ L.parts }
        requires some { 0 < L.parts }
        ensures { result ≡ 0 }
    {
        let (book, share) = blank.open::<L>();
        Steps { book, share }
    }

    /// The hash of the node over two, which counts.
    pub(crate) fn join(&mut self, left: &Digest, right: &Digest) -> Digest
        ensures hash { result ≡ node_hash left.now right.now }
        ensures one { self.new ≡ self.old + 1 }
    {
        self.book.add(&mut self.share, 1);
        join(left, right)
    }
}
