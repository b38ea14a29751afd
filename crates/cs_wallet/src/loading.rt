//! Taking a wallet's file.
ghost use Rattle.std.specs.Prelude.{◌≡◌, IfOk, IsErrAnd};
ghost use Rattle.cs_base.specs.Outside.{HasCause};
ghost use Rattle.cs_io.specs.Told.{Stays};
ghost use Rattle.cs_wallet.specs.Fitting.{WalletFits};
ghost use Rattle.cs_wallet.specs.Refusals.{Takes, IsStoreFault};

use crate::cause::{Cause, Untaken, unread};
use crate::reading::read_wallet;
use cs_io::{Loaded, Store};
use cs_onetime::Wallet;
use std::alloc::Global;

/// The most bytes of a wallet's file, 16 MiB, as of every file: all numbers that a wallet uses find
/// room in half of them.
pub const MOST_WALLET: usize = 16_777_216;

/// The wallet of the file of this name.
pub fn take_wallet<E: Store>(alloc: Global, store: &mut E, name: &str) -> Result<Wallet, Untaken>
    ensures taken { Takes name.now (E.files store.old) result }
    ensures fits { IfOk result WalletFits }
    ensures kept { Stays (E.files store.old) (E.files store.new) }
    ensures cause { HasCause (E.faults store.old) (E.faults store.new) (IsErrAnd result IsStoreFault) }
{
    let mut bytes = Vec::new(alloc);
    match store.load(name, MOST_WALLET, &mut bytes) {
        Loaded::Done => match read_wallet(alloc, &bytes) {
            Ok(wallet) => Ok(wallet),
            Err(error) => Err(unread(error)),
        },
        Loaded::Absent => Err(Untaken::Refused(Cause::Absent)),
        Loaded::TooLong => Err(Untaken::Refused(Cause::TooLong)),
        Loaded::Failed => Err(Untaken::Refused(Cause::Fault)),
        Loaded::Memory => Err(Untaken::Memory),
    }
}
