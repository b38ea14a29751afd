//! The number and the size of a simulation, as words.
ghost use Rattle.std.specs.Prelude.{◌≡◌};
ghost use Rattle.cs_io.specs.Numbers.{short_number};
ghost use Rattle.cs_cli.specs.Numbers.{both_numbers, size_in, simulated};
ghost use Rattle.cs_cli.specs.Words.{texts_of};

use crate::MOST_SIZE;
use cs_io::read_short_number;

// The size of a simulation.
fn read_size(word: &str) -> Option<u32>
    ensures { result ≡ size_in (short_number word.now) }
{
    let size = read_short_number(word)?;
    if 0 < size && size <= u64::from(MOST_SIZE) {
        Some(size as u32)
    } else {
        None
    }
}

fn read_both(number: &str, size: &str) -> Option<(u64, u32)>
    ensures { result ≡ both_numbers (short_number number.now) (size_in (short_number size.now)) }
{
    let number = read_short_number(number)?;
    let size = read_size(size)?;
    Some((number, size))
}

// The number and the size of a simulation, which are all words behind the command.
pub(crate) fn read_simulation(options: &[String]) -> Option<(u64, u32)>
    ensures { result ≡ simulated (texts_of options.now) }
{
    let (number, behind) = options.split_first()?;
    let (size, others) = behind.split_first()?;
    if others.is_empty() {
        read_both(number.as_str(), size.as_str())
    } else {
        None
    }
}
