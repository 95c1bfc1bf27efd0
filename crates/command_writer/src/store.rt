// A text that is put together in a buffer. What does not fit is counted all the same, so that an empty
// buffer serves to measure. Lengths over the limit are not told apart, so that no sum can wrap.
ghost use Rattle.std.specs.Prelude.{◌≡◌, ◌+◌, [], ◌∷◌, ◌++◌};
ghost use Rattle.base64_codec.specs.Encode as Base64;
ghost use Rattle.decimal.specs.Write as Decimal;
ghost use Rattle.command.specs.Values.{integer_shown};
ghost use Rattle.command.specs.Write.{Checked, before};
ghost use Rattle.command_writer.specs.Stores.{spare, Puts, Told};

use command::Refusal;
use decimal::{Number, WriteError};
use frames::Framing;

// The buffer, and where the text ends so far.
#[derive(Drop)]
pub struct Draft<'a> {
    pub out: &'a mut [u8],
    pub end: usize,
}

impl Draft<'_> {
    // Puts a string.
    pub(crate) fn put(&mut self, s: &[u8])
        ensures { Puts s.now self.old self.new }
    {
        octets::copy_at(s, self.out, self.end);
        self.end = end_of(self.end, s.len());
    }

    // Puts `;key=`, with the name of a key.
    pub(crate) fn put_key(&mut self, name: &[u8])
        ensures { Puts (59 ∷ name.now ++ 61 ∷ []) self.old self.new }
    {
        self.put(b";");
        self.put(name);
        self.put(b"=");
    }

    // Puts the Base64 of some bytes.
    pub(crate) fn put_base64(&mut self, bytes: &[u8])
        ensures { Puts (Base64.text_of bytes.now) self.old self.new }
    {
        base64_codec::encode(bytes, self.out, self.end);
        self.end = end_of(self.end, (bytes.len() + 2) / 3 * 4);
    }

    // Puts the text of a number. A negative zero, or a number past signed 64 bits, is refused.
    pub(crate) fn put_number(&mut self, n: Number) -> Result<(), Refusal>
        ensures { Told (before (integer_shown n) Checked.fine) (Decimal.text_of n) self.old result self.new }
    {
        self.end = match decimal::write(n, self.out, self.end) {
            Ok(end) => end,
            Err(WriteError::NoRoom) => end_of(self.end, decimal::text_length(n)),
            Err(WriteError::NegativeZero) => return Err(Refusal::MalformedInteger),
            Err(WriteError::OutOfRange) => return Err(Refusal::OutOfRange),
        };
        Ok(())
    }
}

// Where n bytes from place `at` on end, or any place over the limit.
fn end_of(at: usize, n: usize) -> usize
    ensures { spare result ≡ spare (at + n) }
{
    if at > Framing::TEXT_LIMIT {
        return at;
    }
    if n > Framing::TEXT_LIMIT {
        return n;
    }
    at + n
}
