//! Numbers among the words of a command.
ghost use Rattle.std.specs.Prelude.{◌≡◌};
ghost use Rattle.std.specs.List.{list_all};
ghost use Rattle.cs_base.specs.Characters.{is_digit};
ghost use Rattle.cs_io.specs.Numbers.{short_number};

// Whether there are digits alone.
fn are_digits(word: &[u8]) -> bool
    ensures { result ≡ list_all is_digit word.now }
{
    word.iter().all(|code| *code >= b'0' && *code <= b'9')
}

/// The number that a word of 1 to 18 digits spells, with zeros in front or without.
pub fn read_short_number(word: &str) -> Option<u64>
    ensures { result ≡ short_number word.now }
{
    if !are_digits(word.as_bytes()) || word.is_empty() || word.len() > 18 {
        return None;
    }
    match word.parse::<u64>() {
        Ok(number) => Some(number),
        // 18 digits are below 2^64.
        Err(_) => unreachable!(),
    }
}
