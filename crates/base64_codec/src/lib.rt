// Strict Base64 (RFC 4648, section 4): unused bits zero, no other character, and padding required; or
// optional, by the caller's choice, and then all of it or none.
//
// Not here: line breaks, other alphabets, texts in pieces. A text is checked whole before a byte is
// written.
#![tactic(auto)]

mod alphabet;
mod decoder;
mod encoder;
mod lacking;
mod table;

ghost use Rattle.std.specs.Prelude.{◌≡◌};
ghost use Rattle.octets.specs.Outcome.{outcome};
ghost use Rattle.base64_codec.specs.Claims.{EncodedDecodes, DecodedEncodes, UnpaddedDecodes};
ghost use Rattle.base64_codec.specs.Decode.{decode_of};
ghost use Rattle.base64_codec.specs.Encode.{encode_of};
ghost use Rattle.base64_codec.specs.Examples.{DecodeExamples};
ghost use Rattle.base64_codec.specs.Padding.{decode_with};
ghost use Rattle.base64_codec.specs.declared.DecodeError.TheVariants.{Invalid};

// What is wrong with a text: its length or padding, a character, or bits that no byte uses.
#[derive(Clone, Copy, Debug, PartialEq, Eq)]
pub enum Fault {
    Length,
    Character,
    UnusedBits,
}

// Whether a text must have its padding, or may leave all of it out.
#[derive(Clone, Copy)]
pub enum Padding {
    Required,
    Optional,
}

// Why a text is not decoded.
#[derive(Clone, Copy, Debug, PartialEq, Eq)]
pub enum DecodeError {
    Invalid(Fault),
    NoRoom,
}

impl From<Fault> for DecodeError {
    ghost from_gives = { λ fault e. e ≡ Invalid fault };

    fn from(fault: Fault) -> DecodeError {
        DecodeError::Invalid(fault)
    }
}

// Stores the bytes of `text` in `out` from place `at` on, and answers how many they are. A fault is told
// before a lack of room, and after either `out` is as before. A text that decodes is the only one of its
// bytes.
pub fn decode(text: &[u8], out: &mut [u8], at: usize) -> Result<usize, DecodeError>
    ensures out_after { outcome result out.new ≡ decode_of text.now out.old at }
    ensures decoded_encodes { DecodedEncodes }
{
    let padding = decoder::check(text)?;
    let n = text.len() / 4 * 3 - padding;
    if !octets::fits(at, n, out.len()) {
        return Err(DecodeError::NoRoom);
    }
    decoder::fill(text, out, at);
    Ok(n)
}

// The same by a choice of padding. Where it is optional, the text of some bytes decodes to them with its
// padding and without it, and no other text does.
pub fn decode_with(
    padding: Padding,
    text: &[u8],
    out: &mut [u8],
    at: usize,
) -> Result<usize, DecodeError>
    ensures out_after { outcome result out.new ≡ decode_with padding text.now out.old at }
    ensures decoded_encodes { DecodedEncodes × UnpaddedDecodes × DecodeExamples }
{
    match padding {
        Padding::Required => decode(text, out, at),
        Padding::Optional => lacking::decode(text, out, at),
    }
}

// Stores the text of `data` in `out` from place `at` on, and answers where it ends. Where it does not fit,
// `out` is as before. It decodes to `data` again.
pub fn encode(data: &[u8], out: &mut [u8], at: usize) -> Option<usize>
    ensures out_after { outcome result out.new ≡ encode_of «data».now out.old at }
    ensures encoded_decodes { EncodedDecodes }
{
    let n = data.len().div_ceil(3) * 4;
    if !octets::fits(at, n, out.len()) {
        return None;
    }
    encoder::fill(data, out, at);
    Some(at + n)
}
