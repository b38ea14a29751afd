//! Taking the contracts of a site.
ghost use Rattle.std.specs.Prelude.{◌≡◌, false, IfOk, IsErrAnd, None};
ghost use Rattle.cs_base.specs.Outside.{HasCause};
ghost use Rattle.cs_io.specs.Told.{Stays};
ghost use Rattle.cs_types.specs.Accepting.{is_refused};
ghost use Rattle.cs_approve.specs.Books.{contracts_of, first_refused};
ghost use Rattle.cs_deploy.specs.Taking.{IsStoreFault, TakesFiles, FilesCome};
ghost use Rattle.cs_deploy.specs.Files.{text_taken, texts_taken};

use crate::cause::{Cause, Untaken};
use crate::loading::{load, refused};
use cs_approve::{Book, BookError};
use cs_base::{Memory, Sequence};
use cs_io::{Store, Text};
use cs_types::{Unjudged, judged};
use std::alloc::Global;

// The text of the file of this name, which is a contract that is accepted.
fn take_text<E: Store>(alloc: Global, store: &mut E, name: &str) -> Result<Sequence<u8>, Untaken>
    ensures taken { TakesFiles (FilesCome (text_taken name.now)) (E.files store.old) result }
    ensures accepted { IfOk result (λ text. is_refused text ≡ false) }
    ensures kept { Stays (E.files store.old) (E.files store.new) }
    ensures cause { HasCause (E.faults store.old) (E.faults store.new) (IsErrAnd result IsStoreFault) }
{
    let text = load(alloc, store, name)?;
    match judged(alloc, text.as_slice()) {
        Ok(_) => Ok(text),
        Err(Unjudged::Faulty(_)) => Err(refused(alloc, name, Cause::Contract)),
        Err(Unjudged::Memory) => Err(Untaken::Memory),
    }
}

/// The texts of the files of these names. Each is accepted before the next one is loaded.
pub fn take_texts<E: Store>(
    alloc: Global,
    store: &mut E,
    names: &[Text],
) -> Result<Sequence<Sequence<u8>>, Untaken>
    ensures taken { TakesFiles (FilesCome (texts_taken names.now)) (E.files store.old) result }
    ensures accepted { IfOk result (λ texts. first_refused texts ≡ None) }
    ensures kept { Stays (E.files store.old) (E.files store.new) }
    ensures cause { HasCause (E.faults store.old) (E.faults store.new) (IsErrAnd result IsStoreFault) }
{
    let mut texts = Sequence::new(alloc);
    for name in names {
        let text = take_text(alloc, store, name.as_str())?;
        let Ok(()) = texts.push(text) else {
            return Err(Untaken::Memory);
        };
    }
    Ok(texts)
}

/// The book of these contracts.
pub fn book_of(alloc: Global, texts: &[Sequence<u8>]) -> Result<Book, Memory>
    requires { first_refused texts.now ≡ None }
    ensures { IfOk result (λ book. book ≡ contracts_of texts.now) }
{
    match Book::new(alloc, texts) {
        Ok(book) => Ok(book),
        Err(BookError::Refused(_, _)) => unreachable!(),
        Err(BookError::Memory) => Err(Memory),
    }
}
