// The command file: a new file of an open session, "first that applies".
ghost use Rattle.std.specs.Prelude.{◌||◌, cond, ◌≡◌};
ghost use Rattle.protocol.specs.Table.{first, is_free};
ghost use Rattle.protocol.specs.Files.{request, opening, file_status, link_like, is_rsync, bad_permissions, bad_size};
ghost use Rattle.protocol.specs.Files.{declared_by, is_directory, open_due, file_recorded, file_checked, if_new, file_of};

use crate::changes::{opens, tells};
use crate::files::{find_file, free_file};
use crate::replies::file_reply;
use command::{Command, FileType, Transmission};
use decimal::Number;
use protocol::{Change, Due, FileRecord, FileState, Id, Session, Status, Told};

#[tactic(auto, unfolding(protocol::specs::Files::file_of))]
pub(crate) fn file(session: Session, command: Command, id: &[u8], name: &[u8]) -> Change
    ensures { result ≡ file_of session (request command id.now name.now) }
{
    if_new(session, id, checked(session, command, id, name))
}

// What a file makes of the session, if its id is new: "empty fid EINVAL; fid known EEXIST".
pub(crate) fn if_new(session: Session, id: &[u8], change: Change) -> Change
    ensures { result ≡ if_new session id.now change }
{
    if id.is_empty() {
        return file_status(session, id, Status::Einval);
    }
    match find_file(&session.files, id) {
        None => change,
        Some(_) => file_status(session, id, Status::Eexist),
    }
}

// A file whose id is new: its type, its permissions, its size and its name.
#[tactic(auto, unfolding(protocol::specs::Files::file_checked))]
fn checked(session: Session, command: Command, id: &[u8], name: &[u8]) -> Change
    ensures { result ≡ file_checked session (request command id.now name.now) }
{
    if is_unsupported(command.file_type, command.transmission) {
        return file_status(session, id, Status::Enotsup);
    }
    if are_outside(command.permissions) || is_bad_size(command.file_type, command.size) {
        return file_status(session, id, Status::Einval);
    }
    if pathname::is_valid(name) {
        return recorded(session, command, id, name);
    }
    file_status(session, id, Status::Einval)
}

// A file that may be had: its open is asked where a record is free.
fn recorded(session: Session, command: Command, id: &[u8], name: &[u8]) -> Change
    ensures { result ≡ file_recorded session (request command id.now name.now) (first is_free session.files) }
{
    let declared = declared_by(command.file_type, command.size);
    match free_file(&session.files) {
        None => file_status(session, id, Status::Emfile),
        Some(j) => opens(j, opening(id, declared), open_due(command.file_type, j)),
    }
}

// A reply about the command's file, which is all that happens.
pub(crate) fn file_status(session: Session, id: &[u8], status: Status) -> Change
    ensures { result ≡ file_status session id.now status }
{
    tells(
        Told::Status(status),
        Some(file_reply(status, session, opening(id, 0), 0)),
    )
}

pub(crate) fn opening(id: &[u8], declared: u64) -> FileRecord
    ensures { result ≡ opening id.now declared }
{
    FileRecord {
        state: FileState::Opening,
        id: Id::of(id),
        count: 0,
        declared,
    }
}

fn open_due(file_type: FileType, j: usize) -> Due
    ensures { result ≡ open_due (is_directory file_type) j }
{
    if is_directory(file_type) {
        Due::OpenDirectory(j)
    } else {
        Due::OpenFile(j)
    }
}

fn is_directory(file_type: FileType) -> bool
    ensures { result ≡ is_directory file_type }
{
    matches!(file_type, FileType::Directory)
}

// "symlink, link or rsync"
fn is_unsupported(file_type: FileType, transmission: Transmission) -> bool
    ensures { result ≡ (link_like file_type || is_rsync transmission) }
{
    matches!(file_type, FileType::Symlink | FileType::Link)
        || matches!(transmission, Transmission::Rsync)
}

// "prm outside 0 to 4095"
fn are_outside(permissions: Number) -> bool
    ensures { result ≡ bad_permissions permissions }
{
    permissions.negative || permissions.magnitude > 4095
}

// "For a regular file only .. a negative one is EINVAL"
fn is_bad_size(file_type: FileType, size: Number) -> bool
    ensures { result ≡ bad_size file_type size }
{
    matches!(file_type, FileType::Regular) && size.negative
}

// "a positive one declares the length, zero or none nothing"
fn declared_by(file_type: FileType, size: Number) -> u64
    ensures { result ≡ declared_by file_type size }
{
    match file_type {
        FileType::Regular if !size.negative => size.magnitude,
        _ => 0,
    }
}
