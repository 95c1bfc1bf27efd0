// The calls that supply something in a receive session: its listing, its home path, and the parts of the
// file that it asks for.
ghost use Rattle.std.specs.Prelude.{◌≡◌, true, false};
ghost use Rattle.octets.specs.Outcome.{outcome};
ghost use Rattle.protocol.specs.Supplies.{Supply, supply_of};
ghost use Rattle.supplying.specs.Supplied.{supply_in};
ghost use Rattle.receiver.specs.Supplied.{next_of};

use crate::replies::answered;
use command::Place;
use protocol::{Answered, Entry, Failure, Receiver};
use sessions::next::Next;
use sessions::places::session_at;
use supplying::turns::{concerned, in_turn};
use supplying::{Given, Left, Supplying, supply_at};

// Supplies something whose strings stand in two slices, and writes its frame at the start of out. Refused
// with 9 where out has under 8,196 bytes, 17 for a part over 4,096 bytes, 18 out of turn, and then as the
// writer refuses; nothing is then changed.
pub fn supply<'a>(
    receiver: Receiver,
    supplying: Supplying,
    text: &'a [u8],
    contents: &'a [u8],
    out: &mut [u8],
) -> Answered
    ensures { outcome result out.new
        ≡ supply_of receiver (supply_in supplying text.now contents.now) out.old }
{
    let given = Given {
        supplying,
        text,
        contents,
    };
    let table = receiver.table;
    let found = concerned(given, table.owed, &table.sessions);
    let place = found.unwrap_or(0);
    let session = session_at(table, place);
    let turn = in_turn(supplying, session.state, found);
    let left = supply_at(given, turn, session, table.owed, out);
    answered(receiver, next_of(place, left), left.written)
}

// What the table takes back; the frame is no reply.
fn next_of(place: usize, left: Left) -> Next
    ensures { result ≡ next_of place left }
{
    Next {
        place,
        session: left.session,
        owed: left.owed,
        told: left.told,
        reply: None,
    }
}

// A file of the listing: its ids stand in the text, its name, its own id and a link's target in the data.
pub fn list<'a>(
    receiver: Receiver,
    entry: Entry,
    text: &'a [u8],
    data: &'a [u8],
    out: &mut [u8],
) -> Answered
    ensures { outcome result out.new
        ≡ supply_of receiver (Supply.list entry text.now «data».now) out.old }
{
    supply(receiver, Supplying::List(entry), text, data, out)
}

// Why a path is not listed: its id and the session's stand in the text.
pub fn list_failed(
    receiver: Receiver,
    text: &[u8],
    id: Place,
    path_id: Place,
    failure: Failure,
    out: &mut [u8],
) -> Answered
    ensures { outcome result out.new
        ≡ supply_of receiver (Supply.list_failed text.now id path_id failure) out.old }
{
    supply(
        receiver,
        Supplying::ListFailed(id, path_id, failure),
        text,
        b"",
        out,
    )
}

// The home path, which ends the listing of the session with this id.
pub fn home<'a>(receiver: Receiver, id: &'a [u8], path: &'a [u8], out: &mut [u8]) -> Answered
    ensures { outcome result out.new
        ≡ supply_of receiver (Supply.home id.now path.now) out.old }
{
    supply(receiver, Supplying::Home, id, path, out)
}

// A part of the file that is asked for, which stays owed.
pub fn part(receiver: Receiver, bytes: &[u8], out: &mut [u8]) -> Answered
    ensures { outcome result out.new ≡ supply_of receiver (Supply.part false bytes.now) out.old }
{
    supply(receiver, Supplying::Part(false), b"", bytes, out)
}

// Its last part: nothing is owed then.
pub fn last_part(receiver: Receiver, bytes: &[u8], out: &mut [u8]) -> Answered
    ensures { outcome result out.new ≡ supply_of receiver (Supply.part true bytes.now) out.old }
{
    supply(receiver, Supplying::Part(true), b"", bytes, out)
}
