//! The texts of numbers.
ghost use Rattle.std.specs.Prelude.{◌≡◌, ℕ, ◌<◌, ◌^◌, Some};
ghost use Rattle.std.specs.Fmt.{decimal};
ghost use Rattle.cs_base.specs.Codes.{number_of, spare_front};

/// The number of which the field is the decimal text: digits alone, and no zero in front of others.
/// None too where it is above 2^64 - 1.
pub fn read_number(field: &[u8]) -> Option<u64>
    ensures { result ≡ number_of field.now }
{
    if has_spare_front(field) {
        return None;
    }
    let Ok(text) = str::from_utf8(field) else {
        return None;
    };
    match text.parse::<u64>() {
        Ok(number) => Some(number),
        Err(_) => None,
    }
}

// Whether a sign or a spare zero stands in front.
fn has_spare_front(field: &[u8]) -> bool
    ensures { result ≡ spare_front field.now }
{
    match field {
        [b'+', ..] => true,
        [b'0', _, ..] => true,
        _ => false,
    }
}

/// What is printed of a number is read as that number.
pub fn printed_number_is_read()
    ensures { (n : ℕ) → n < 2 ^ 64 → number_of (decimal n) ≡ Some n }
{}
