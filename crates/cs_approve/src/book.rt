//! Books of contracts.
ghost use Rattle.std.specs.Prelude.{◌≡◌, [], None, option_copied, IfOk, IfErr, OnOk};
ghost use Rattle.cs_approve.specs.Books.{contract_under, with_contract, contracts_of, first_refused};
ghost use Rattle.cs_approve.specs.Refusing.{refusal_at, IsFirstRefused, AddsContract};

use cs_base::{Memory, Sequence};
use cs_tx_value::Digest;
use cs_types::{Checked, Fault, Unjudged, judged};
use indexmap::IndexMap;
use sha2::{Digest as Hasher, Sha256};
use std::alloc::Global;
use std::marker::Model;

/// Why texts make no book.
#[derive(Clone, Copy, Debug, PartialEq, Eq)]
pub enum BookError {
    /// There was not enough memory.
    Memory,
    /// The text at this place has this fault, and those before it are accepted.
    Refused(usize, Fault),
}

// Why the text at a place is refused.
fn refusal_at(place: usize, error: Unjudged) -> BookError
    ensures { result ≡ refusal_at place error }
{
    match error {
        Unjudged::Memory => BookError::Memory,
        Unjudged::Faulty(fault) => BookError::Refused(place, fault),
    }
}

/// Contracts, each under the id of its text. The contract `token` is always there, and has no text.
#[derive(Drop)]
pub struct Book {
    contracts: IndexMap<Digest, Checked>,
}

impl Model for Book {
    ghost use Rattle.std.specs.Coded.{codes};
    ghost use Rattle.cs_types.specs.contracts.checked.Checked as checked;
    ghost use Rattle.cs_approve.specs.Books.{Contracts};

    ghost Value = { Contracts };

    ghost coded = { Prim.hlevel (codes, checked.the_row.coded) };

    ghost view = { λ b. b.contracts.entries };
}

impl Book {
    /// The book of the contracts that these texts are. Of texts with one id the first counts.
    pub fn new(alloc: Global, texts: &[Sequence<u8>]) -> Result<Book, BookError>
        ensures made { IfOk result (λ book. book ≡ contracts_of texts.now) }
        ensures accepted { OnOk result (first_refused texts.now ≡ None) }
        ensures refused { IfErr result (IsFirstRefused texts.now) }
    {
        let mut book = Book {
            contracts: IndexMap::new(alloc),
        };
        for (place, text) in texts.iter().enumerate() {
            if let Err(error) = book.add_text(alloc, text.as_slice()) {
                return Err(refusal_at(place, error));
            }
        }
        Ok(book)
    }

    // Adds the contract that a text is.
    fn add_text(&mut self, alloc: Global, text: &[u8]) -> Result<(), Unjudged>
        ensures { AddsContract text.now self.old self.new result }
    {
        let contract = judged(alloc, text)?;
        match self.add(Sha256::digest(text), contract) {
            Ok(()) => Ok(()),
            Err(Memory) => Err(Unjudged::Memory),
        }
    }

    // Adds a contract, unless one is there under its id.
    fn add(&mut self, id: Digest, contract: Checked) -> Result<(), Memory>
        ensures { OnOk result (self.new ≡ with_contract self.old id contract) }
    {
        if self.contracts.contains_key(&id) {
            return Ok(());
        }
        self.contracts.insert(id, contract)?;
        Ok(())
    }

    /// The contract under an id. `token` has no text, and isn't found.
    pub fn contract(&self, id: &Digest) -> Option<&Checked>
        ensures { option_copied result ≡ contract_under id.now self.now }
    {
        self.contracts.get(id)
    }
}
