// The commands that are written, by places, and the slice in which a part's ids stand.
ghost use Rattle.std.specs.Prelude.{◌≡◌, length, min};
ghost use Rattle.command.specs.Slots.{nowhere};
ghost use Rattle.protocol.specs.Written.{piece_action};
ghost use Rattle.protocol.specs.Supplies.{entry_command, error_command};
ghost use Rattle.protocol.specs.Table.{id_room};
ghost use Rattle.supplying.specs.Places.{up_to, from, command_with, ids_of};

use command::{Action, Command, Place};
use protocol::{Entry, Id};

// A file of the listing.
pub(crate) fn entry(entry: Entry) -> Command
    ensures { result ≡ entry_command entry }
{
    Command {
        action: Action::File,
        file_type: entry.file_type,
        id: entry.id,
        file_id: entry.path_id,
        modified: entry.modified,
        permissions: entry.permissions,
        size: entry.size,
        name: entry.name,
        status: entry.own_id,
        parent: entry.parent,
        payload: entry.target,
        ..Command::NONE
    }
}

// The status of a path, whose word has n bytes.
pub(crate) fn error(id: Place, path_id: Place, n: usize) -> Command
    ensures { result ≡ error_command id path_id n }
{
    Command {
        action: Action::Status,
        id,
        file_id: path_id,
        status: Place { start: 0, len: n },
        ..Command::NONE
    }
}

// The home path's status, which stands before it: how long the id and the path are.
pub(crate) fn home(id: usize, path: usize) -> Command
    ensures { result ≡ command_with Action.Status (up_to id) nowhere (from 2 path) (up_to 2) nowhere }
{
    Command {
        action: Action::Status,
        id: Place { start: 0, len: id },
        name: Place {
            start: 2,
            len: path,
        },
        status: Place { start: 0, len: 2 },
        ..Command::NONE
    }
}

// A part of a file, the last one or not: how long the ids are, as far as their arrays go, and the part.
pub(crate) fn piece(last: bool, id: usize, file_id: usize, bytes: usize) -> Command
    ensures { result
        ≡ command_with (piece_action last) (up_to (min id id_room)) (from id_room (min file_id id_room)) nowhere nowhere (up_to bytes) }
{
    Command {
        action: if last { Action::EndData } else { Action::Data },
        id: Place {
            start: 0,
            len: id.min(Id::ROOM),
        },
        file_id: Place {
            start: Id::ROOM,
            len: file_id.min(Id::ROOM),
        },
        payload: Place {
            start: 0,
            len: bytes,
        },
        ..Command::NONE
    }
}

// The session's id and then the file's.
pub(crate) fn ids(own: &Id, file: &Id) -> [u8; 2 * Id::ROOM]
    ensures ids { result ≡ ids_of own.now.bytes file.now.bytes }
    ensures lengths { (length own.now.bytes ≡ id_room) × (length file.now.bytes ≡ id_room) }
{
    let mut ids = [0u8; 2 * Id::ROOM];
    octets::copy_at(&own.bytes, &mut ids, 0);
    octets::copy_at(&file.bytes, &mut ids, Id::ROOM);
    ids
}
