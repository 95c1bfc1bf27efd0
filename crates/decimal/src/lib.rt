// Integers as a command writes them: an optional `-`, then 1 to 19 digits, within signed 64 bits.
//
// An integer is a sign and a magnitude. Not here: other bases, `+`, blanks, fractions.
#![tactic(auto)]

mod reader;
mod writer;

ghost use Rattle.std.specs.Prelude.{◌≡◌, length};
ghost use Rattle.octets.specs.Outcome.{outcome};
ghost use Rattle.decimal.specs.Claims.{FixedReads, ReadsFixed, WrittenReads, ReadWrites};
ghost use Rattle.decimal.specs.Limits.{limit};
ghost use Rattle.decimal.specs.Read.{parse_of};
ghost use Rattle.decimal.specs.Write.{text_of, write_of};

#[derive(Clone, Copy)]
pub struct Number {
    pub negative: bool,
    pub magnitude: u64,
}

impl Number {
    // "then 1 to 19 digits"
    pub const DIGITS: usize = 19;

    // "within signed 64 bits": the greatest magnitude
    pub const LIMIT: u64 = 9223372036854775807;

    // and the greatest below zero
    pub const LIMIT_BELOW: u64 = 9223372036854775808;
}

// Why a text reads as none. Malformed is told before out of range.
#[derive(Clone, Copy, Debug, PartialEq, Eq)]
pub enum ParseError {
    Malformed,
    OutOfRange,
}

// Why a number is not written.
#[derive(Clone, Copy, Debug, PartialEq, Eq)]
pub enum WriteError {
    NegativeZero,
    OutOfRange,
    NoRoom,
}

// The integer that a whole text is. `-0` is zero, which has no sign.
pub fn parse(text: &[u8]) -> Result<Number, ParseError>
    ensures value { result ≡ parse_of text.now }
    ensures read_writes { ReadWrites × ReadsFixed }
{
    if octets::starts_with(text, b"-") {
        return reader::magnitude(true, &text[1..]);
    }
    reader::magnitude(false, text)
}

// The length of a number's text, also of one that `write` refuses.
pub fn text_length(n: Number) -> usize
    ensures { result ≡ length (text_of n) }
{
    let w = writer::width(n.magnitude);
    if n.negative { w + 1 } else { w }
}

// Stores the text of n in `out` from place `at` on, without leading zeros, and answers where it ends. An
// error leaves `out` as before; a number that is no integer of ours is told before a lack of room.
#[tactic(auto, unfolding(crate::specs::Write::write_of))]
pub fn write(n: Number, out: &mut [u8], at: usize) -> Result<usize, WriteError>
    ensures out_after { outcome result out.new ≡ write_of n out.old at }
    ensures written_reads { WrittenReads × FixedReads }
{
    if n.negative && n.magnitude == 0 {
        return Err(WriteError::NegativeZero);
    }
    if n.magnitude > limit(n.negative) {
        return Err(WriteError::OutOfRange);
    }
    let len = text_length(n);
    if !octets::fits(at, len, out.len()) {
        return Err(WriteError::NoRoom);
    }
    writer::fill(n, out, at);
    Ok(at + len)
}

// The greatest magnitude of a sign.
fn limit(negative: bool) -> u64
    ensures { result ≡ limit negative }
{
    if negative {
        Number::LIMIT_BELOW
    } else {
        Number::LIMIT
    }
}
