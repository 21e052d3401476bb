// Whole numbers read from a text in decimal.
//
// Any slice of bytes and any limit will do. What a text says is defined in Numeral.antt of the crate definitions.
#![tactic(auto)]

ghost use Rattle.std.specs.Prelude.{◌≡◌};
ghost use Rattle.definitions.specs.Numeral.{numeral};
ghost use Rattle.numerals.specs.Reading.{with_digit};

// The number with one digit more, where the byte is a digit and that number is at most the limit.
fn with_digit(value: u64, byte: u8, most: u64) -> Option<u64>
    ensures { result ≡ with_digit most value byte }
{
    if !byte.is_ascii_digit() {
        return None;
    }
    let digit = u64::from(byte - b'0');
    let more = value.checked_mul(10)?.checked_add(digit)?;
    if more <= most { Some(more) } else { None }
}

// The number that the text says: one digit or more and nothing else, leading zeros among them, and a number of
// at most `most`. Not `parse`: it takes a sign, and only a str.
pub fn number_of(text: &[u8], most: u64) -> Option<u64>
    ensures { result ≡ numeral most text.now }
{
    if text.is_empty() {
        return None;
    }
    let mut value = 0;
    for &byte in text {
        value = with_digit(value, byte, most)?;
    }
    Some(value)
}
