//! The commands of a wallet.
ghost use Rattle.std.specs.Prelude.{◌≡◌, ◌≢◌, ◌≤◌};
ghost use Rattle.cs_base.specs.Outside.{HasCause};
ghost use Rattle.cs_io.specs.Outside.{Faulty, Faultless};
ghost use Rattle.cs_io.specs.Told.{Stays};
ghost use Rattle.cs_onetime.specs.Wallet.{after_signing};
ghost use Rattle.cs_onetime.specs.declared.wallet.TheConstants.{LAST_NUMBER};
ghost use Rattle.cs_wallet.specs.Fitting.{WalletFits};
ghost use Rattle.cs_wallet.specs.Commands.{NewRuns, KeyRuns, SignRuns, SignsFirst, WalletRuns, WalletDecided, signing, parts_answer};

use crate::calls::WalletCall;
use crate::loading::take_wallet;
use crate::saving::save_first;
use crate::telling::{part_lines, refuse, tell, tell_key};
use cs_base::Sink;
use cs_io::Store;
use cs_onetime::{Digest, LAST_NUMBER, Wallet, WalletError};
use std::alloc::Global;

/// Does what is called for with the wallet of the file of this name, and answers the status that a
/// program ends with: 0; 3 where a number has signed another message and 13 where it is one too
/// many; 12 where the file isn't taken or the store fails, 6 where the sink fails, 8 for want of
/// memory.
///
/// Nothing of a signature is printed unless the file that records it was saved.
pub fn run_wallet<E: Store, K: Sink>(
    alloc: Global,
    call: WalletCall,
    name: &str,
    store: &mut E,
    out: &mut K,
) -> u8
    ensures runs { WalletRuns call name.now
        (Faulty E.faults store.old store.new) (E.files store.old) (E.files store.new)
        (K.written out.old) (K.written out.new) result }
    // Where no fault came about, the file alone decides.
    ensures whole { Faultless E.faults store.old store.new → Faultless K.faults out.old out.new
        → WalletDecided call name.now (E.files store.old) result }
    ensures only { (result ≢ 2) × (result ≢ 5) }
    ensures write_fault { HasCause (K.faults out.old) (K.faults out.new) (result ≡ 6) }
{
    match call {
        WalletCall::New(seed) => run_new(alloc, name, &seed, store, out),
        WalletCall::Key(number) => run_key(alloc, name, number, store, out),
        WalletCall::Sign(number, message) => run_sign(alloc, name, number, &message, store, out),
    }
}

// Saves a wallet of the seed.
fn run_new<E: Store, K: Sink>(
    alloc: Global,
    name: &str,
    seed: &Digest,
    store: &mut E,
    out: &mut K,
) -> u8
    ensures runs { NewRuns name.now seed.now
        (Faulty E.faults store.old store.new) (E.files store.old) (E.files store.new)
        (K.written out.old) (K.written out.new) result }
    ensures only { (result ≢ 2) × (result ≢ 5) }
    ensures write_fault { HasCause (K.faults out.old) (K.faults out.new) (result ≡ 6) }
{
    let wallet = Wallet::new(alloc, *seed);
    save_first(alloc, name, &wallet, &[], store, out)
}

// Prints the public key of a number.
fn run_key<E: Store, K: Sink>(
    alloc: Global,
    name: &str,
    number: u64,
    store: &mut E,
    out: &mut K,
) -> u8
    ensures runs { KeyRuns name.now number
        (Faulty E.faults store.old store.new) (E.files store.old)
        (K.written out.old) (K.written out.new) result }
    ensures kept { Stays (E.files store.old) (E.files store.new) }
    ensures only { (result ≢ 2) × (result ≢ 5) }
    ensures write_fault { HasCause (K.faults out.old) (K.faults out.new) (result ≡ 6) }
{
    match take_wallet(alloc, store, name) {
        Ok(wallet) => tell_key(alloc, &wallet, number, out),
        Err(why) => refuse(alloc, name, why, out),
    }
}

// Signs a message under a number of the wallet of the file.
fn run_sign<E: Store, K: Sink>(
    alloc: Global,
    name: &str,
    number: u64,
    message: &Digest,
    store: &mut E,
    out: &mut K,
) -> u8
    ensures runs { SignRuns name.now number message.now
        (Faulty E.faults store.old store.new) (E.files store.old) (E.files store.new)
        (K.written out.old) (K.written out.new) result }
    ensures only { (result ≢ 2) × (result ≢ 5) }
    ensures write_fault { HasCause (K.faults out.old) (K.faults out.new) (result ≡ 6) }
{
    match take_wallet(alloc, store, name) {
        Ok(wallet) => sign_within(alloc, name, wallet, number, message, store, out),
        Err(why) => refuse(alloc, name, why, out),
    }
}

// Signs by a wallet that was taken, where TOML has the number.
fn sign_within<E: Store, K: Sink>(
    alloc: Global,
    name: &str,
    wallet: Wallet,
    number: u64,
    message: &Digest,
    store: &mut E,
    out: &mut K,
) -> u8
    requires { WalletFits wallet }
    ensures runs { SignsFirst name.now (signing wallet number message.now)
        (parts_answer wallet number message.now)
        (Faulty E.faults store.old store.new) (E.files store.old) (E.files store.new)
        (K.written out.old) (K.written out.new) result }
    ensures only { (result ≢ 2) × (result ≢ 5) }
    ensures write_fault { HasCause (K.faults out.old) (K.faults out.new) (result ≡ 6) }
{
    if number > LAST_NUMBER {
        return tell(out, b"limit wallet\n", 13);
    }
    sign_and_save(alloc, name, wallet, number, message, store, out)
}

// Signs by a wallet, and saves it before it tells.
fn sign_and_save<E: Store, K: Sink>(
    alloc: Global,
    name: &str,
    mut wallet: Wallet,
    number: u64,
    message: &Digest,
    store: &mut E,
    out: &mut K,
) -> u8
    requires fits { WalletFits wallet }
    requires small { number ≤ LAST_NUMBER }
    ensures runs { SignsFirst name.now (after_signing wallet number message.now)
        (parts_answer wallet number message.now)
        (Faulty E.faults store.old store.new) (E.files store.old) (E.files store.new)
        (K.written out.old) (K.written out.new) result }
    ensures only { (result ≢ 2) × (result ≢ 5) }
    ensures write_fault { HasCause (K.faults out.old) (K.faults out.new) (result ≡ 6) }
{
    match wallet.sign(alloc, number, message) {
        Ok(texts) => match part_lines(alloc, &texts) {
            Ok(lines) => save_first(alloc, name, &wallet, &lines, store, out),
            Err(_) => 8,
        },
        Err(WalletError::Used) => tell(out, b"refused call used\n", 3),
        Err(WalletError::Full) => tell(out, b"limit wallet\n", 13),
        Err(WalletError::Memory) => 8,
    }
}
