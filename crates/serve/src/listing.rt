// A session is let in and gets its listing, or is denied.
use crate::console::{Console, put, supply};
use crate::current::{Current, Path};
use crate::{arguments, report};
use command::{FileType, Place, ZERO};
use decimal::Number;
use protocol::{Entry, Failure, Id, Reply, Session};
use std::io::Stderr;
use streams::put_number;
use supplying::Supplying;

// 0644: may be read by all.
const PERMISSIONS: Number = Number {
    negative: false,
    magnitude: 420,
};

// Where the path's id stands behind the session's.
const PATH_ID: usize = Id::ROOM;

// Where the name stands behind the file's own id.
const NAME: usize = 20;

// A file's entry, and the slice in which its own id and its name stand: an entry's places are of one slice.
#[derive(Clone, Copy)]
pub struct Described {
    pub entry: Entry,
    pub contents: [u8; NAME + 4096],
}

pub(crate) fn deny(err: Stderr, console: Console, id: &[u8]) -> Console {
    report::heard(err, b"session denied: ", id);
    let mut reply = [0u8; Reply::ROOM];
    let answered = receiver::deny(console.receiver, id, &mut reply);
    put(err, console, answered, &reply)
}

pub(crate) fn open(rt: &HostRuntime, console: Console, current: Current) -> Console {
    let allowed = allow(rt.stderr(), console, current);
    home(rt.stderr(), list_each(rt, allowed, current), current)
}

fn allow(err: Stderr, console: Console, current: Current) -> Console {
    let mut reply = [0u8; Reply::ROOM];
    let answered = receiver::allow(console.receiver, current.id.as_slice(), &mut reply);
    put(err, console, answered, &reply)
}

fn list_each(rt: &HostRuntime, console: Console, current: Current) -> Console {
    let mut next = console;
    for (path, number) in current
        .paths
        .iter()
        .take(current.count)
        .zip(1..=Session::FILES)
    {
        next = list(rt, next, current, *path, number);
    }
    next
}

// Lists a path of the session, the first being number 1, or says that there is no such file.
fn list(
    rt: &HostRuntime,
    console: Console,
    current: Current,
    path: Path,
    number: usize,
) -> Console {
    let text = ids(current, path);
    match path.listed {
        Some(size) => {
            let described = describe(rt, current.id.len, path, size, number);
            supply(
                rt.stderr(),
                console,
                Supplying::List(described.entry),
                &text,
                &described.contents,
            )
        }
        None => list_failed(rt.stderr(), console, current.id.len, path.id.len, &text),
    }
}

// A regular file. Its own id is its number.
fn describe(rt: &HostRuntime, id_len: usize, path: Path, size: u64, number: usize) -> Described {
    let mut contents = [0u8; NAME + 4096];
    let digits = put_number(number as u64, &mut contents[..NAME]);
    let n = arguments::read(rt, path.argument, &mut contents[NAME..]);
    Described {
        entry: entry(id_len, path.id.len, digits, n, size),
        contents,
    }
}

// How long the ids of the session and the path are, the file's own id and its name.
fn entry(id: usize, path_id: usize, own_id: usize, name: usize, size: u64) -> Entry {
    Entry {
        file_type: FileType::Regular,
        modified: ZERO,
        permissions: PERMISSIONS,
        size: Number {
            negative: false,
            magnitude: size,
        },
        id: Place { start: 0, len: id },
        path_id: Place {
            start: PATH_ID,
            len: path_id,
        },
        parent: Place::NOWHERE,
        name: Place {
            start: NAME,
            len: name,
        },
        own_id: Place {
            start: 0,
            len: own_id,
        },
        target: Place::NOWHERE,
    }
}

fn list_failed(
    err: Stderr,
    console: Console,
    id_len: usize,
    path_id_len: usize,
    text: &[u8],
) -> Console {
    let id = Place {
        start: 0,
        len: id_len,
    };
    let path_id = Place {
        start: PATH_ID,
        len: path_id_len,
    };
    supply(
        err,
        console,
        Supplying::ListFailed(id, path_id, Failure::Enoent),
        text,
        b"",
    )
}

// The session's id and the path's.
fn ids(current: Current, path: Path) -> [u8; 2 * Id::ROOM] {
    let mut text = [0u8; 2 * Id::ROOM];
    text[..PATH_ID].copy_from_slice(&current.id.bytes);
    text[PATH_ID..].copy_from_slice(&path.id.bytes);
    text
}

// The listing ends with the home path.
fn home(err: Stderr, console: Console, current: Current) -> Console {
    supply(err, console, Supplying::Home, current.id.as_slice(), b"/")
}
