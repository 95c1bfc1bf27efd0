// Writes a command's canonical text, without opener or closer.
//
// The fields are gone through twice: first with an empty buffer, which checks every field and
// measures the text, and then, if nothing is at fault and the text fits, to store it.
#![tactic(auto)]

mod fields;
pub mod framed;
mod slots;
mod store;
mod values;

ghost use Rattle.std.specs.Prelude.{◌||◌, ◌≡◌, length, ltb};
ghost use Rattle.octets.specs.Outcome.{outcome};
ghost use Rattle.frames.specs.Stream.{text_limit};
ghost use Rattle.command.specs.Keys.{keys};
ghost use Rattle.command.specs.Slots.{values_of};
ghost use Rattle.command.specs.Write.{Checked, checked_of, answered, write_of};
ghost use Rattle.command.specs.RoundTrips.{WrittenThenRead, WritesCanonical};
ghost use Rattle.command_writer.specs.Pieces.{whole};
ghost use Rattle.command_writer.specs.Stores.{spare};

use crate::fields::{Sources, put_fields};
use crate::store::Draft;
use command::{Command, Refusal};
use frames::Framing;

// Stores the canonical text of a command, whose places lie in text and scratch, at the start of out.
// A refusal leaves out as before. What is written is exactly the canonical texts, and a command that is
// written and read again is the same command.
pub fn write<'a>(
    command: Command,
    text: &'a [u8],
    scratch: &'a [u8],
    out: &mut [u8],
) -> Result<usize, Refusal>
    ensures out_after { outcome (answered result) out.new
        ≡ write_of (values_of command text.now scratch.now) out.old }
    ensures written_then_read { WrittenThenRead × WritesCanonical }
{
    let sources = Sources { text, scratch };
    let mut empty = [0u8; 0];
    let mut measured = Draft {
        out: &mut empty,
        end: 0,
    };
    put_fields(&command, &sources, &mut measured)?;
    write_measured(&command, &sources, out, measured.end)
}

// Writes a command of which no field is at fault, and whose text has n bytes.
fn write_measured(
    command: &Command,
    sources: &Sources<'_>,
    out: &mut [u8],
    n: usize,
) -> Result<usize, Refusal>
    requires { (checked_of keys (values_of command.now sources.now.text.now sources.now.scratch.now) ≡ Checked.fine)
        × (spare n ≡ spare (length (whole (values_of command.now sources.now.text.now sources.now.scratch.now)))) }
    ensures { outcome (answered result) out.new
        ≡ write_of (values_of command.now sources.now.text.now sources.now.scratch.now) out.old }
{
    if command.lacks() {
        return Err(Refusal::Missing);
    }
    if no_room(n, out.len()) {
        return Err(Refusal::ShortBuffer);
    }
    let mut draft = Draft { out, end: 0 };
    put_fields(command, sources, &mut draft)?;
    Ok(draft.end)
}

// Whether a text of n bytes passes the limit, or a buffer of this length is shorter.
fn no_room(n: usize, len: usize) -> bool
    ensures { result ≡ (ltb text_limit n || ltb len n) }
{
    n > Framing::TEXT_LIMIT || n > len
}
