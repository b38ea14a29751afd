//! The words of the commands of a wallet, whose file stands behind `wallet` and the word of what is
//! done.
ghost use Rattle.std.specs.Prelude.{◌≡◌};
ghost use Rattle.cs_cli.specs.Words.{texts_of};
ghost use Rattle.cs_cli.specs.Wallets.{new_called, key_called, sign_called, call_called, wallet_called};

use crate::deployments::is_file;
use cs_deploy::master_in;
use cs_io::read_short_number;
use cs_wallet::WalletCall;

// `new FILE HEX`
fn read_new(values: &[String]) -> Option<WalletCall>
    ensures { result ≡ new_called (texts_of values.now) }
{
    let (seed, others) = values.split_first()?;
    if !others.is_empty() {
        return None;
    }
    let seed = master_in(seed.as_bytes())?;
    Some(WalletCall::New(seed))
}

// `key FILE N`
fn read_key(values: &[String]) -> Option<WalletCall>
    ensures { result ≡ key_called (texts_of values.now) }
{
    let (number, others) = values.split_first()?;
    if !others.is_empty() {
        return None;
    }
    let number = read_short_number(number.as_str())?;
    Some(WalletCall::Key(number))
}

// `sign FILE N HEX`
fn read_sign(values: &[String]) -> Option<WalletCall>
    ensures { result ≡ sign_called (texts_of values.now) }
{
    let (number, behind) = values.split_first()?;
    let (message, others) = behind.split_first()?;
    if !others.is_empty() {
        return None;
    }
    let number = read_short_number(number.as_str())?;
    let message = master_in(message.as_bytes())?;
    Some(WalletCall::Sign(number, message))
}

fn read_call(word: &str, values: &[String]) -> Option<WalletCall>
    ensures { result ≡ call_called word.now (texts_of values.now) }
{
    match word {
        "new" => read_new(values),
        "key" => read_key(values),
        "sign" => read_sign(values),
        _ => None,
    }
}

/// The words behind `wallet`.
pub(crate) fn read_wallet(options: &[String]) -> Option<WalletCall>
    ensures { result ≡ wallet_called (texts_of options.now) }
{
    let (word, behind) = options.split_first()?;
    let (file, values) = behind.split_first()?;
    if !is_file(file.as_str()) {
        return None;
    }
    read_call(word.as_str(), values)
}
