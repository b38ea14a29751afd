//! The words behind `transaction`.
ghost use Rattle.std.specs.Prelude.{◌≡◌};
ghost use Rattle.cs_cli.specs.Words.{texts_of};
ghost use Rattle.cs_cli.specs.Transactions.{number_behind, numbered_called};

use cs_io::read_short_number;

// `--number` and a number.
fn number_behind(word: &str, values: &[String]) -> Option<u64>
    ensures { result ≡ number_behind word.now (texts_of values.now) }
{
    let (number, others) = values.split_first()?;
    if word != "--number" || !others.is_empty() {
        return None;
    }
    read_short_number(number.as_str())
}

/// The number of a session, where one stands there; no other words do.
pub(crate) fn read_numbered(options: &[String]) -> Option<Option<u64>>
    ensures { result ≡ numbered_called (texts_of options.now) }
{
    let Some((word, behind)) = options.split_first() else {
        return Some(None);
    };
    let number = number_behind(word.as_str(), behind)?;
    Some(Some(number))
}
