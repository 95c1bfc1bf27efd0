// The commands that are written. The session's id and a file's stand in one slice, each in the room of an
// id; a name or a file's contents are lent as they are, and not copied.
ghost use Rattle.std.specs.Prelude.{◌≡◌, ◌≤◌, min, length};
ghost use Rattle.octets.specs.Outcome.{outcome};
ghost use Rattle.command.specs.Write.{answered};
ghost use Rattle.command.specs.Framed.{framed_of};
ghost use Rattle.protocol.specs.Table.{id_room};
ghost use Rattle.protocol.specs.Written.{piece_action, piece_values};
ghost use Rattle.sending.specs.Transfers.{id_of, file_id_of};
ghost use Rattle.sending.specs.Commands.{send_values, file_values, finish_values};
ghost use Rattle.sending.specs.Calls.{long_refusal};
ghost use Rattle.sender.specs.Places.{up_to, after, command_with, ids_of};

use command::letters::Class;
use command::{Action, Command, Place, Refusal, letters};
use command_writer::framed::write_framed;
use decimal::Number;
use protocol::Id;
use sending::{SentFile, Transfer};

// ---- A command written in its frame.
pub(crate) fn write_send(id: &[u8], out: &mut [u8]) -> Result<usize, Refusal>
    ensures { outcome (answered result) out.new ≡ framed_of (send_values id.now) out.old }
{
    write_framed(lone(Action::Send, id.len()), id, id, out)
}

pub(crate) fn write_file(
    transfer: Transfer,
    id: &[u8],
    name: &[u8],
    size: u64,
    out: &mut [u8],
) -> Result<usize, Refusal>
    requires { length id.now ≤ id_room }
    ensures { outcome (answered result) out.new
        ≡ framed_of (file_values (id_of transfer) id.now name.now size) out.old }
{
    let ids = ids(transfer.id.bytes, id);
    let command = file(id_len(transfer.id.len), id.len(), name.len(), size);
    write_framed(command, &ids, name, out)
}

pub(crate) fn write_piece(
    transfer: Transfer,
    current: SentFile,
    bytes: &[u8],
    last: bool,
    out: &mut [u8],
) -> Result<usize, Refusal>
    ensures { outcome (answered result) out.new
        ≡ framed_of (piece_values (id_of transfer) (file_id_of current) bytes.now last) out.old }
{
    let ids = ids(transfer.id.bytes, &current.id.bytes);
    let command = piece(
        last,
        id_len(transfer.id.len),
        id_len(current.id.len),
        bytes.len(),
    );
    write_framed(command, &ids, bytes, out)
}

pub(crate) fn write_finish(transfer: Transfer, out: &mut [u8]) -> Result<usize, Refusal>
    ensures { outcome (answered result) out.new ≡ framed_of (finish_values (id_of transfer)) out.old }
{
    let command = lone(Action::Finish, id_len(transfer.id.len));
    write_framed(command, &transfer.id.bytes, &transfer.id.bytes, out)
}

// ---- Its parts.
// A command of the session alone, whose id has n bytes.
fn lone(action: Action, n: usize) -> Command
    ensures { result ≡ command_with action (up_to n) (up_to 0) 0 (up_to 0) (up_to 0) }
{
    Command {
        action,
        id: Place { start: 0, len: n },
        ..Command::NONE
    }
}

// A file command: how long the ids and the name are, and the file's size.
fn file(id: usize, file_id: usize, name: usize, size: u64) -> Command
    ensures { result ≡ command_with Action.File (up_to id) (after file_id) size (up_to name) (up_to 0) }
{
    Command {
        action: Action::File,
        id: Place { start: 0, len: id },
        file_id: Place {
            start: Id::ROOM,
            len: file_id,
        },
        size: Number {
            negative: false,
            magnitude: size,
        },
        name: Place {
            start: 0,
            len: name,
        },
        ..Command::NONE
    }
}

// A piece of a file, the last one or not: how long the ids and the piece are.
fn piece(last: bool, id: usize, file_id: usize, bytes: usize) -> Command
    ensures { result ≡ command_with (piece_action last) (up_to id) (after file_id) 0 (up_to 0) (up_to bytes) }
{
    Command {
        action: piece_action(last),
        id: Place { start: 0, len: id },
        file_id: Place {
            start: Id::ROOM,
            len: file_id,
        },
        payload: Place {
            start: 0,
            len: bytes,
        },
        ..Command::NONE
    }
}

fn piece_action(last: bool) -> Action
    ensures { result ≡ piece_action last }
{
    if last { Action::EndData } else { Action::Data }
}

// How many bytes an id has, of those of its array.
fn id_len(n: usize) -> usize
    ensures { result ≡ min n id_room }
{
    n.min(Id::ROOM)
}

// The session's id and then the file's, where that has room.
#[tactic(auto, unfolding(crate::specs::Places::ids_of))]
fn ids(own: [u8; Id::ROOM], file: &[u8]) -> [u8; 2 * Id::ROOM]
    ensures { result ≡ ids_of own file.now }
{
    let mut ids = [0u8; 2 * Id::ROOM];
    octets::copy_at(&own, &mut ids, 0);
    octets::copy_at(file, &mut ids, Id::ROOM);
    ids
}

// The refusal of a file id that has no room.
#[tactic(auto, unfolding(sending::specs::Calls::long_refusal))]
pub(crate) fn long_refusal(id: &[u8]) -> u8
    ensures { result ≡ long_refusal id.now }
{
    if letters::all(Class::Safe, id) {
        Refusal::TooLong.number()
    } else {
        Refusal::UnsafeCharacter.number()
    }
}
