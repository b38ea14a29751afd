//! What holds of every signature, and of every list of calls of a wallet.
ghost use Rattle.std.specs.Prelude.{◌≡◌, ℕ, List};
ghost use Rattle.cs_onetime.specs.Halves.{public_key};
ghost use Rattle.cs_onetime.specs.Signature.{Verifies, signature};
ghost use Rattle.cs_onetime.specs.Wallet.{Call, CallsGo, IsSigned};
ghost use Rattle.cs_onetime.specs.declared.wallet.Wallet.{Wallet};

/// The signature of a message under the key of a number verifies.
///
/// It does nothing: its contract is a theorem, which a caller has by calling it.
pub fn signatures_verify()
    ensures { (seed : List ℕ) (number : ℕ) (message : List ℕ) →
        Verifies (public_key seed number) message (signature seed number message) }
{}

/// Over every list of calls of a wallet, whatever it has signed before, no number signs two
/// different messages.
///
/// It does nothing: its contract is a theorem, which a caller has by calling it.
pub fn no_number_signs_two_messages()
    ensures { (old new : Wallet) (calls : List Call) (number : ℕ) (one other : List ℕ) →
        CallsGo old calls new → IsSigned number one calls → IsSigned number other calls →
        one ≡ other }
{}
