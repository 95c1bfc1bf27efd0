// The operands of an operation. A string is its length, in one byte or in two, and its bytes. Places are
// counted from the operation's letter; none of them comes near the greatest number.
use command::{FileType, Place};
use decimal::Number;
use protocol::{Entry, Failure};
use receiver_in_place::Call;
use script_parts::{byte, eight_bytes, rest, two_bytes};

// ---- A call: the id of an operation that has nothing else, or a code.
pub(crate) fn id(s: &[u8]) -> &[u8] {
    rest(s, 2)
}

// The call that an operation's letter stands for.
pub(crate) fn call(s: &[u8]) -> Call {
    match byte(s, 0) {
        b'a' => Call::Allow,
        b'd' => Call::Deny,
        b'x' => Call::Drop,
        b'k' => Call::Done,
        b'u' => Call::Unlisted,
        _ => Call::Failed(failure(byte(s, 1))),
    }
}

pub(crate) fn failure(code: u8) -> Failure {
    match code {
        1 => Failure::Eperm,
        2 => Failure::Eio,
        3 => Failure::Enoent,
        _ => Failure::Enospc,
    }
}

fn is_code(b: u8) -> bool {
    matches!(b, 1..=4)
}

pub(crate) fn code_length(s: &[u8]) -> Option<usize> {
    if is_code(byte(s, 1)) { Some(2) } else { None }
}

// ---- Strings.

// A string whose length is one byte: an id.
fn id_at(s: &[u8], at: usize) -> Place {
    Place {
        start: at.saturating_add(1),
        len: usize::from(byte(s, at)),
    }
}

// A string whose length is two bytes.
fn string_at(s: &[u8], at: usize) -> Place {
    Place {
        start: at.saturating_add(2),
        len: two_bytes(s, at),
    }
}

fn end(place: Place) -> usize {
    place.start.saturating_add(place.len)
}

// ---- A file of the listing: its type, three integers, three ids, and three more strings.
pub(crate) fn entry(s: &[u8]) -> Entry {
    let id = id_at(s, 26);
    let path_id = id_at(s, end(id));
    let parent = id_at(s, end(path_id));
    let name = string_at(s, end(parent));
    let own_id = string_at(s, end(name));
    Entry {
        file_type: file_type(byte(s, 1)),
        modified: integer(s, 2),
        permissions: integer(s, 10),
        size: integer(s, 18),
        id,
        path_id,
        parent,
        name,
        own_id,
        target: string_at(s, end(own_id)),
    }
}

pub(crate) fn entry_length(s: &[u8]) -> Option<usize> {
    if byte(s, 1) <= 3 {
        Some(end(entry(s).target))
    } else {
        None
    }
}

fn file_type(code: u8) -> FileType {
    match code {
        0 => FileType::Regular,
        1 => FileType::Directory,
        2 => FileType::Symlink,
        _ => FileType::Link,
    }
}

// Eight bytes in two's complement.
fn integer(s: &[u8], at: usize) -> Number {
    let n = eight_bytes(s, at).cast_signed();
    Number {
        negative: n < 0,
        magnitude: n.unsigned_abs(),
    }
}

// ---- Why a path is not listed: the session's id, the path's, and a code.
pub(crate) fn session_id(s: &[u8]) -> Place {
    id_at(s, 1)
}

pub(crate) fn path_id(s: &[u8]) -> Place {
    id_at(s, end(session_id(s)))
}

pub(crate) fn code(s: &[u8]) -> u8 {
    byte(s, end(path_id(s)))
}

pub(crate) fn failure_length(s: &[u8]) -> Option<usize> {
    if is_code(code(s)) {
        Some(end(path_id(s)).saturating_add(1))
    } else {
        None
    }
}

// ---- The home path, after the session's id; and a part, alone.
pub(crate) fn home(s: &[u8]) -> Place {
    string_at(s, end(session_id(s)))
}

pub(crate) fn home_length(s: &[u8]) -> usize {
    end(home(s))
}

pub(crate) fn part(s: &[u8]) -> Place {
    string_at(s, 1)
}
