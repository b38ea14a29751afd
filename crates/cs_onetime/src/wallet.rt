//! A wallet of one-time keys.
ghost use Rattle.std.specs.Prelude.{◌≡◌, ◌≤◌, [], Some, None, IfOk, OnErr};
ghost use Rattle.cs_onetime.specs.Halves.{public_key};
ghost use Rattle.cs_onetime.specs.Signature.{Verifies, signature, texts_in};
ghost use Rattle.cs_onetime.specs.Wallet.{message_of, signed_after, after_signing, SignsBy};

use crate::signing::signature;
use cs_base::{Memory, Sequence};
use cs_hash::{Digest, same};
use std::alloc::Global;

/// The greatest number of a key, 2^63 - 1: TOML has no greater one.
pub const LAST_NUMBER: u64 = 9_223_372_036_854_775_807;

/// The most numbers that a wallet uses.
pub const MOST_USED: usize = 65_536;

/// The seed of one-time keys, and what their numbers have signed.
#[derive(Drop)]
pub struct Wallet {
    /// The seed of all secrets.
    pub seed: Digest,
    /// Each number that has signed, with its message.
    pub used: Sequence<(u64, Digest)>,
}

/// Why a wallet doesn't sign.
#[derive(Clone, Copy, Debug, PartialEq, Eq)]
pub enum WalletError {
    /// The number has signed another message.
    Used,
    /// So many numbers have signed that no new one may.
    Full,
    /// There was not enough memory.
    Memory,
}

impl From<Memory> for WalletError {
    ghost use Rattle.cs_onetime.specs.declared.wallet.WalletError.TheVariants.{Memory as NoMemory};

    ghost from_gives = { λ _ e. e ≡ NoMemory };

    fn from(_: Memory) -> WalletError {
        WalletError::Memory
    }
}

impl Wallet {
    /// A wallet of which no number has signed.
    pub fn new(alloc: Global, seed: Digest) -> Wallet
        ensures { result ≡ record { seed = seed; used = [] } }
    {
        Wallet {
            seed,
            used: Sequence::new(alloc),
        }
    }

    // The message that a number has signed.
    fn message_of(&self, number: u64) -> Option<Digest>
        ensures { result ≡ message_of number self.now.used }
    {
        for signed in self.used.as_slice() {
            if signed.0 == number {
                return Some(signed.1);
            }
        }
        None
    }

    /// The signature of a message under a number. The number is used from then on, and signs no
    /// other message; signing the same message again gives the same texts.
    pub fn sign(
        &mut self,
        alloc: Global,
        number: u64,
        message: &Digest,
    ) -> Result<Vec<Vec<u8>>, WalletError>
        requires { number ≤ LAST_NUMBER }
        ensures signed { IfOk result (λ texts.
            texts_in texts.items ≡ signature self.old.seed number message.now) }
        ensures verifies { IfOk result (λ texts.
            Verifies (public_key self.old.seed number) message.now (texts_in texts.items)) }
        ensures used { SignsBy (after_signing self.old number message.now) self.new result }
        // What gives no signature leaves the wallet as it was.
        ensures kept { OnErr result (self.new ≡ self.old) }
    {
        match self.message_of(number) {
            Some(earlier) => self.sign_again(alloc, number, message, &earlier),
            None => self.sign_first(alloc, number, message),
        }
    }

    // The signature under a number that has signed this message earlier.
    fn sign_again(
        &self,
        alloc: Global,
        number: u64,
        message: &Digest,
        earlier: &Digest,
    ) -> Result<Vec<Vec<u8>>, WalletError>
        ensures signed { IfOk result (λ texts.
            texts_in texts.items ≡ signature self.now.seed number message.now) }
        ensures used { SignsBy (signed_after (Some earlier.now) self.now number message.now)
            self.now result }
    {
        if !same(earlier, message) {
            return Err(WalletError::Used);
        }
        Ok(signature(alloc, &self.seed, number, message)?)
    }

    // The signature under a number that has signed nothing.
    fn sign_first(
        &mut self,
        alloc: Global,
        number: u64,
        message: &Digest,
    ) -> Result<Vec<Vec<u8>>, WalletError>
        ensures signed { IfOk result (λ texts.
            texts_in texts.items ≡ signature self.old.seed number message.now) }
        ensures used { SignsBy (signed_after None self.old number message.now) self.new result }
        ensures kept { OnErr result (self.new ≡ self.old) }
    {
        if self.used.len() >= MOST_USED {
            return Err(WalletError::Full);
        }
        let texts = signature(alloc, &self.seed, number, message)?;
        match self.used.push((number, *message)) {
            Ok(()) => Ok(texts),
            Err(_) => Err(WalletError::Memory),
        }
    }
}
