// Reading digits.
ghost use Rattle.std.specs.Prelude.{◌≡◌, ◌≤◌, length};
ghost use Rattle.decimal.specs.Limits.{most_digits};
ghost use Rattle.decimal.specs.Read.{digits_of, magnitude_of, ranged_of};

use crate::{Number, ParseError};

// The integer of this sign whose digits are the whole text.
pub(crate) fn magnitude(negative: bool, text: &[u8]) -> Result<Number, ParseError>
    ensures { result ≡ magnitude_of negative text.now }
{
    if text.is_empty() || text.len() > Number::DIGITS {
        return Err(ParseError::Malformed);
    }
    match digits(text) {
        Some(m) => ranged(negative, m),
        None => Err(ParseError::Malformed),
    }
}

// The integer of this sign and magnitude, if it is within signed 64 bits.
#[tactic(auto, unfolding(crate::specs::Read::ranged_of))]
fn ranged(negative: bool, magnitude: u64) -> Result<Number, ParseError>
    ensures { result ≡ ranged_of negative magnitude }
{
    if magnitude > crate::limit(negative) {
        return Err(ParseError::OutOfRange);
    }
    Ok(Number {
        negative: negative && magnitude != 0,
        magnitude,
    })
}

// The value of so few digits that any u64 can hold it. A loop and no `try_fold`: that a turn's product
// fits is known from how many digits are read, which an invariant can say and a closure does not see.
fn digits(text: &[u8]) -> Option<u64>
    requires { length text.now ≤ most_digits }
    ensures { result ≡ digits_of 0 text.now }
{
    let mut value: u64 = 0;
    for c in text {
        if !c.is_ascii_digit() {
            return None;
        }
        value = value * 10 + u64::from(*c - b'0');
    }
    Some(value)
}
