// The frames of what is supplied: a file of the listing, why a path is not listed, the home path, and the
// parts of the file that is asked for. Nothing here looks whether it is in turn, or whether quiet holds it
// back. Where what is written does not depend on the session, the contract speaks of every session.
ghost use Rattle.std.specs.Prelude.{◌≡◌};
ghost use Rattle.octets.specs.Outcome.{outcome};
ghost use Rattle.command.specs.Write.{answered};
ghost use Rattle.protocol.specs.Supplies.{Supply, framed_for};
ghost use Rattle.supplying.specs.LongHomes.{LongHomeAsWritten};

use crate::commands;
use command::{Place, Refusal};
use command_writer::framed::write_framed;
use frames::Framing;
use protocol::{Entry, Failure, Session, Status};
use reply::word_of;

// A home path of more bytes is refused by its length alone: its text would pass the limit.
const HOME_ROOM: usize = Framing::TEXT_LIMIT - 2;

// Writes the file command of an entry: its ids stand in the text, its name, its own id and a link's target
// in the contents.
#[tactic(auto, unfolding(protocol::specs::Supplies::framed_for))]
pub(crate) fn write_entry(
    entry: Entry,
    text: &[u8],
    contents: &[u8],
    out: &mut [u8],
) -> Result<usize, Refusal>
    ensures { (s : Session) → outcome (answered result) out.new
        ≡ framed_for s (Supply.list entry text.now contents.now) out.old }
{
    write_framed(commands::entry(entry), text, contents, out)
}

// Writes why a path is not listed: "status" with its id and the code.
#[tactic(auto, unfolding(protocol::specs::Supplies::framed_for))]
pub(crate) fn write_error(
    text: &[u8],
    id: Place,
    path_id: Place,
    failure: Failure,
    out: &mut [u8],
) -> Result<usize, Refusal>
    ensures { (s : Session) → outcome (answered result) out.new
        ≡ framed_for s (Supply.list_failed text.now id path_id failure) out.old }
{
    let word = word_of(Status::from(failure));
    write_framed(commands::error(id, path_id, word.len()), text, word, out)
}

// Writes "the OK with the home path". Both stand in one slice, the status first. A path that has no room
// there is refused as the writer would refuse it.
pub(crate) fn write_home(id: &[u8], path: &[u8], out: &mut [u8]) -> Result<usize, Refusal>
    ensures out_after { (s : Session) → outcome (answered result) out.new
        ≡ framed_for s (Supply.home id.now path.now) out.old }
    ensures long_home_as_written { LongHomeAsWritten }
{
    if path.len() > HOME_ROOM {
        return Err(Refusal::ShortBuffer);
    }
    let mut contents = [0u8; Framing::TEXT_LIMIT];
    octets::copy_at(b"OK", &mut contents, 0);
    octets::copy_at(path, &mut contents, 2);
    write_framed(commands::home(id.len(), path.len()), id, &contents, out)
}

// Writes a part of the file that the session asks for, "as data and end_data": the file's id is that of
// its first record.
pub(crate) fn write_part(
    session: &Session,
    last: bool,
    bytes: &[u8],
    out: &mut [u8],
) -> Result<usize, Refusal>
    ensures { outcome (answered result) out.new
        ≡ framed_for session.now (Supply.part last bytes.now) out.old }
{
    let file = session.files[0];
    let ids = commands::ids(&session.id, &file.id);
    let command = commands::piece(last, session.id.len, file.id.len, bytes.len());
    write_framed(command, &ids, bytes, out)
}
