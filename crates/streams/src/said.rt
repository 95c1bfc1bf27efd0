// What is said on standard error. Where it cannot be written, nothing more can be said.
use crate::hex::Hex;
use std::io;
use std::io::{IsTerminal, Stderr, Write};

// The bytes as they are.
pub fn say(err: Stderr, s: &[u8]) {
    let _ = Print::write_all(&err, s);
}

// A number in decimal.
pub fn say_number(err: Stderr, n: u64) {
    let _ = Print::print(&err, n);
}

// The end of a line. A terminal may be in raw mode, in which a line's end does not return to its start.
pub fn say_end(err: Stderr) {
    if err.is_terminal() {
        say(err, b"\r");
    }
    say(err, b"\n");
}

// The bytes in lower-case hex.
pub fn say_hex(err: Stderr, s: &[u8]) {
    let _ = Print::print(&err, Hex(s));
}

// A line: what failed, as the caller names it, a colon and the error's words.
pub fn say_error(err: Stderr, what: &[u8], error: io::Error) {
    let mut room = [0u8; 320];
    say(err, what);
    say(err, b": ");
    say(err, words(error, &mut room));
    say(err, b"\n");
}

// An error's words without its number, which the library puts behind those of the system. The room is for
// the longest.
pub(crate) fn words(error: io::Error, room: &mut [u8; 320]) -> &[u8] {
    let mut rest = &mut room[..];
    let _ = write!(rest, "{error}");
    let left = rest.len();
    let all = &room[..room.len().saturating_sub(left)];
    if error.raw_os_error().is_none() {
        return all;
    }
    match all.iter().rposition(|b| *b == b'(') {
        Some(at) => &all[..at.saturating_sub(1)],
        None => all,
    }
}
