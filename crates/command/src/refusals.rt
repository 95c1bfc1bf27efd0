// The refusals that stand for what other crates say of a value's text.
ghost use Rattle.std.specs.Prelude.{◌≡◌};
ghost use Rattle.command.specs.Values.{integer_refusal, decode_refusal};

use crate::Refusal;
use base64_codec::{DecodeError, Fault};
use decimal::ParseError;

impl From<ParseError> for Refusal {
    ghost from_gives = { λ error refusal. refusal ≡ integer_refusal error };

    fn from(error: ParseError) -> Refusal {
        match error {
            ParseError::Malformed => Refusal::MalformedInteger,
            ParseError::OutOfRange => Refusal::OutOfRange,
        }
    }
}

impl From<DecodeError> for Refusal {
    ghost from_gives = { λ error refusal. refusal ≡ decode_refusal error };

    fn from(error: DecodeError) -> Refusal {
        match error {
            DecodeError::Invalid(Fault::Length) => Refusal::Base64Length,
            DecodeError::Invalid(Fault::Character) => Refusal::Base64Character,
            DecodeError::Invalid(Fault::UnusedBits) => Refusal::UnusedBits,
            DecodeError::NoRoom => Refusal::ShortBuffer,
        }
    }
}
