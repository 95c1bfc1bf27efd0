// The alphabet: a value for each character, and a character for each value.
ghost use Rattle.std.specs.Prelude.{◌≡◌, ◌≤◌};
ghost use Rattle.base64_codec.specs.Alphabet.{value_of, letter_of};

use crate::table::VALUES;

// The padding character.
pub(crate) const PAD: u8 = b'=';

// The value of a character, and 64 for a byte that is none, by the table.
pub(crate) fn value(c: u8) -> u8
    ensures { (result ≡ value_of c) × (result ≤ 64) }
{
    VALUES[usize::from(c)]
}

// The character of a value below 64.
pub(crate) fn letter(v: u8) -> u8
    ensures { result ≡ letter_of v }
{
    if v < 26 {
        return v + b'A';
    }
    if v < 52 {
        return v + 71;
    }
    if v < 62 {
        return v - 4;
    }
    if v == 62 {
        return b'+';
    }
    b'/'
}
