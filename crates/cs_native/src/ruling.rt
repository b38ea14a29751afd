//! A book of contracts behind the rules.
ghost use Rattle.std.specs.Prelude.{◌≡◌};

use crate::hashlock::Hashlock;
use crate::kept::Kept;
use crate::signed::Signed;
use crate::sum::Sum;
use cs_approve::Book;
use cs_base::Memory;
use cs_tx::Judge;
use cs_tx_types::Tx;
use std::alloc::Global;
use std::marker::Model;

/// A book of contracts within the rules: a contract that isn't the id of a rule is asked of the
/// book.
#[derive(Drop)]
pub struct RuledBook {
    book: Book,
}

impl Model for RuledBook {
    ghost use Rattle.cs_approve.specs.contracts.book.Book as books;
    ghost use Rattle.cs_approve.specs.Books.{Contracts};

    ghost Value = { Contracts };

    ghost coded = { books.the_row.coded };

    ghost view = { λ b. b.book };
}

impl RuledBook {
    /// The book within the rules.
    pub fn new(book: Book) -> RuledBook
        ensures { result ≡ book }
    {
        RuledBook { book }
    }
}

impl Judge for RuledBook {
    ghost use Rattle.cs_native.specs.Approval.{is_approved_with_rules};

    ghost is_approved = { λ book tx. is_approved_with_rules book tx };

    fn approves(&self, alloc: Global, tx: &Tx) -> Result<bool, Memory> {
        let locks = Kept::new(&self.book, Hashlock);
        let sums = Kept::new(locks, Sum);
        let payments = Kept::new(sums, Signed);
        payments.approves(alloc, tx)
    }
}
