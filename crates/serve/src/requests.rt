// The answers to what is asked for: a listed file whole, before more is fed, or why not.
use crate::console::{Console, put};
use crate::{console, files, report};
use protocol::{Failure, FileRecord, Reply};
use std::fs::File;
use std::io::Stderr;
use supplying::Supplying;

// The file of argument k.
pub(crate) fn supply(rt: &HostRuntime, console: Console, k: usize) -> Console {
    match files::open(rt, k) {
        Ok(mut file) => supply_parts(rt, console, k, &mut file),
        Err(_) => unread(rt, console, k),
    }
}

// A part is written before the next one is read. One that is not full is the last, also an empty one. The
// loop's turns are counted, up to a number that no file uses up.
fn supply_parts(rt: &HostRuntime, console: Console, k: usize, file: &mut File) -> Console {
    let mut bytes = [0u8; FileRecord::PART_LIMIT];
    let mut next = console;
    for _ in 0..u64::MAX {
        let Some(n) = streams::read_all_from(file, &mut bytes) else {
            return unread(rt, next, k);
        };
        let is_last = n < FileRecord::PART_LIMIT;
        next = part(rt.stderr(), next, octets::part(&bytes, 0, n), is_last);
        if is_last || !next.run.is_well() {
            break;
        }
    }
    next
}

fn part(err: Stderr, console: Console, bytes: &[u8], is_last: bool) -> Console {
    console::supply(err, console, Supplying::Part(is_last), b"", bytes)
}

// The file can no longer be opened, or not be read.
fn unread(rt: &HostRuntime, console: Console, k: usize) -> Console {
    report::file(rt, b"cannot read ", k);
    let mut reply = [0u8; Reply::ROOM];
    let answered = receiver::failed(console.receiver, Failure::Eio, &mut reply);
    put(rt.stderr(), console, answered, &reply)
}

pub(crate) fn unlisted(err: Stderr, console: Console) -> Console {
    let mut reply = [0u8; Reply::ROOM];
    let answered = receiver::unlisted(console.receiver, &mut reply);
    put(err, console, answered, &reply)
}
