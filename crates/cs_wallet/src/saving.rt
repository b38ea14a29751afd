//! Saving a wallet before anything is told.
ghost use Rattle.std.specs.Prelude.{◌≡◌, ◌≢◌, ◌≤◌};
ghost use Rattle.cs_base.specs.Outside.{HasCause};
ghost use Rattle.cs_io.specs.Outside.{Faulty};
ghost use Rattle.cs_io.specs.Told.{Changes};
ghost use Rattle.cs_io.specs.declared.store.Saved.TheVariants.{Failed};
ghost use Rattle.cs_wallet.specs.Fitting.{WalletFits};
ghost use Rattle.cs_wallet.specs.Commands.{SavesWallet, SavesFirst};

use crate::cause::Cause;
use crate::printing::print_wallet;
use crate::telling::{refuse_file, tell};
use cs_base::Sink;
use cs_io::{Saved, Store};
use cs_onetime::Wallet;
use std::alloc::Global;

// Saves a wallet as the file of this name.
fn save_wallet<E: Store>(alloc: Global, store: &mut E, name: &str, wallet: &Wallet) -> Saved
    requires { WalletFits wallet.now }
    ensures made { Changes (SavesWallet name.now wallet.now result)
        (E.files store.old) (E.files store.new) }
    ensures cause { HasCause (E.faults store.old) (E.faults store.new) (result ≡ Failed) }
{
    match print_wallet(alloc, wallet) {
        Ok(bytes) => store.save(name, &bytes),
        Err(_) => Saved::Memory,
    }
}

/// Saves the wallet as the file of this name, and only then prints the lines.
pub(crate) fn save_first<E: Store, K: Sink>(
    alloc: Global,
    name: &str,
    wallet: &Wallet,
    lines: &[u8],
    store: &mut E,
    out: &mut K,
) -> u8
    requires { WalletFits wallet.now }
    ensures runs { SavesFirst name.now wallet.now (record { status = 0; printed = lines.now })
        (Faulty E.faults store.old store.new) (E.files store.old) (E.files store.new)
        (K.written out.old) (K.written out.new) result }
    ensures store { E.faults store.old ≤ E.faults store.new }
    ensures only { (result ≢ 2) × (result ≢ 5) }
    ensures write_fault { HasCause (K.faults out.old) (K.faults out.new) (result ≡ 6) }
{
    match save_wallet(alloc, store, name, wallet) {
        Saved::Done => tell(out, lines, 0),
        Saved::Failed => refuse_file(alloc, name, Cause::Fault, out),
        Saved::Memory => 8,
    }
}
