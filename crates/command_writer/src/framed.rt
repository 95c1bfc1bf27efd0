// A command's canonical text with its opener and its closer.
ghost use Rattle.std.specs.Prelude.{◌≡◌, ◌+◌, ◌≤◌, length};
ghost use Rattle.octets.specs.Outcome.{outcome};
ghost use Rattle.command.specs.Slots.{values_of};
ghost use Rattle.command.specs.Write.{answered};
ghost use Rattle.command.specs.Framed.{framed_of, FramedThenRead};
ghost use Rattle.command_writer.specs.Frames.{enclosed};

use crate::write;
use command::{Command, Refusal};
use frames::Framing;

// What a buffer has at least: the longest text, two bytes before it and two after it.
pub const FRAME_ROOM: usize = Framing::TEXT_LIMIT + 4;

// Stores the canonical text of a command in its frame at the start of out, and answers the frame's
// length. 9 comes first; a refusal leaves out as before. What is written, however it is cut, is scanned
// and read as the same command.
pub fn write_framed<'a>(
    command: Command,
    text: &'a [u8],
    scratch: &'a [u8],
    out: &mut [u8],
) -> Result<usize, Refusal>
    ensures out_after { outcome (answered result) out.new
        ≡ framed_of (values_of command text.now scratch.now) out.old }
    ensures framed_then_read { FramedThenRead }
{
    if out.len() < FRAME_ROOM {
        return Err(Refusal::ShortBuffer);
    }
    let n = write(command, text, scratch, &mut out[2..])?;
    enclose(out, n);
    Ok(n + 4)
}

// Puts the opener before a text of n bytes that stands at place 2, and the closer after it.
fn enclose(out: &mut [u8], n: usize)
    requires { n + 4 ≤ length out.old }
    ensures { out.new ≡ enclosed out.old n }
{
    out[0] = 0x1B;
    out[1] = 0x5D;
    out[n + 2] = 0x1B;
    out[n + 3] = 0x5C;
}
