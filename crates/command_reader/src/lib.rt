// Reads a command text: its fields left to right, each by its key's kind.
//
// The text is not copied: strings are places in it, and Base64 values are decoded into the lent
// scratch, one after another. Not here: frames, sessions, and what a command does.
#![tactic(auto)]

mod fields;
mod slots;
mod values;

ghost use Rattle.std.specs.Prelude.{◌≡◌};
ghost use Rattle.octets.specs.Outcome.{outcome};
ghost use Rattle.command.specs.Read.{answered, read_of, ReadMeans};
ghost use Rattle.command.specs.RoundTrips.{ReadThenWritten};

use command::letters::Class;
use command::{Command, Refusal, letters};
use frames::Framing;

// The command of a text, or why it has none. 9 comes first, and leaves the scratch as before; after
// another refusal the scratch holds the values accepted before the refused field. What is read is what
// the text means, and canonical text that is read and written again is the same text.
#[tactic(auto, using(crate::proofs::Claims::claims), unfolding(command::specs::Read::read_of, command::specs::Fields::text_read))]
pub fn read(text: &[u8], scratch: &mut [u8]) -> Result<Command, Refusal>
    ensures scratch_after { outcome (answered result) scratch.new ≡ read_of text.now scratch.old }
    ensures read_means { ReadMeans × ReadThenWritten }
{
    if scratch.len() < Command::SCRATCH_ROOM {
        return Err(Refusal::ShortBuffer);
    }
    if text.len() > Framing::TEXT_LIMIT {
        return Err(Refusal::TextTooLong);
    }
    if !letters::all(Class::Text, text) {
        return Err(Refusal::BadByte);
    }
    if !octets::starts_with(text, b"5113;") {
        return Err(Refusal::BadField);
    }
    fields::read_fields(text, scratch)
}
