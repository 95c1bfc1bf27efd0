// The lines on standard error. A terminal shows also how far the current file is, in one line that is
// written over.
use crate::arguments;
use crate::arguments::Argument;
use command::letters;
use command::letters::Class;
use decimal::Number;
use std::io::{IsTerminal, Stderr};
use streams::{Run, say, say_end, say_number};

// ---- Lines, of a file by its number among the arguments, or of the session.
pub(crate) fn plain(rt: &HostRuntime, word: &[u8], file: Option<usize>) {
    start(rt.stderr(), word);
    end(rt, file, true);
}

pub(crate) fn counted(rt: &HostRuntime, word: &[u8], n: u64, file: Option<usize>) {
    start(rt.stderr(), word);
    say_number(rt.stderr(), n);
    end(rt, file, true);
}

// A status that stops. It is the console's text, and is shown up to a byte that a terminal might take for
// a command. Where that leaves nothing, `-` is shown.
pub(crate) fn stopped(rt: &HostRuntime, status: &[u8], file: Option<usize>) {
    let err = rt.stderr();
    let n = letters::pass(Class::Text, status, 0);
    start(err, b"stopped ");
    if n == 0 {
        say(err, b"-");
    }
    say(err, octets::part(status, 0, n));
    end(rt, file, true);
}

pub(crate) fn differs(rt: &HostRuntime, sent: u64, size: Number, file: Option<usize>) {
    let err = rt.stderr();
    start(err, b"differs ");
    say_number(err, sent);
    let sign: &[u8] = if size.negative { b" -" } else { b" " };
    say(err, sign);
    say_number(err, size.magnitude);
    end(rt, file, true);
}

pub(crate) fn last(rt: &HostRuntime, whole: usize, files: usize) {
    let err = rt.stderr();
    start(err, b"");
    say_number(err, whole as u64);
    say(err, b" of ");
    say_number(err, files as u64);
    say(err, b" files whole");
    end(rt, None, true);
}

// The line ended, or a read or a write of it failed: nothing more is written.
pub(crate) fn ended(rt: &HostRuntime, run: Run) {
    run.end(rt.stderr(), b"send_files");
    plain(rt, b"line ended", None);
}

// The line that is written over, on a terminal alone. A size of 0 is one that is not known.
pub(crate) fn progress(rt: &HostRuntime, sent: u64, size: u64, file: Option<usize>) {
    let err = rt.stderr();
    if !err.is_terminal() {
        return;
    }
    start(err, b"sending ");
    say_number(err, sent);
    if size > 0 {
        say(err, b" of ");
        say_number(err, size);
    }
    end(rt, file, false);
}

// ---- Parts of lines.
// A line stands where the one that is written over stood.
fn start(err: Stderr, word: &[u8]) {
    if err.is_terminal() {
        say(err, b"\r\x1b[K");
    }
    say(err, word);
}

// The file's local path, and the line's end where it is not written over.
fn end(rt: &HostRuntime, file: Option<usize>, is_kept: bool) {
    let err = rt.stderr();
    if let Some(k) = file {
        let mut path = [0u8; 4096];
        let n = arguments::read(rt, Argument::Local(k), &mut path);
        say(err, b" ");
        say(err, octets::part(&path, 0, n));
    }
    if is_kept {
        say_end(err);
    }
}
