// Makes a new file of an old one and a delta: patch SIGNATURE OLD DELTA [NEW]
//
// The new file goes to standard output, or to NEW, and the delta's hash in hex to standard error:
// whoever has the hash's algorithm compares it. With `patch show DELTA` its operations are listed.
#![tactic(auto)]

mod files;
mod listing;
mod report;

use delta::Measured;

// Where each argument stands.
const SIGNATURE: usize = 1;

const OLD: usize = 2;

const DELTA: usize = 3;

const SHOWN: usize = 2;

// A byte more than an input may have is read, so that a longer one is refused.
const ROOM: usize = Measured::LIMIT + 1;

fn main(rt: HostRuntime) {
    match streams::argument_count(&rt) {
        3 => show(&rt),
        4 => patch(&rt, false),
        5 => patch(&rt, true),
        _ => report::usage(rt.stderr()),
    }
}

fn patch(rt: &HostRuntime, to_file: bool) {
    let mut signature = [0u8; ROOM];
    let mut old = [0u8; ROOM];
    let mut delta = [0u8; ROOM];
    let Some(s) = files::read(rt, SIGNATURE, &mut signature) else {
        return;
    };
    let Some(o) = files::read(rt, OLD, &mut old) else {
        return;
    };
    let Some(d) = files::read(rt, DELTA, &mut delta) else {
        return;
    };
    apply(
        rt,
        octets::part(&signature, 0, s),
        octets::part(&old, 0, o),
        octets::part(&delta, 0, d),
        to_file,
    );
}

// The output has room for whatever a delta may make.
fn apply<'a>(rt: &HostRuntime, signature: &'a [u8], old: &'a [u8], delta: &'a [u8], to_file: bool) {
    let mut out = [0u8; Measured::LIMIT];
    match delta::apply(signature, old, delta, &mut out) {
        Ok(measured) => {
            if files::deliver(rt, octets::part(&out, 0, measured.length), to_file) {
                report::hash(rt.stderr(), measured.checksum, delta);
            }
        }
        Err(why) => report::refused(rt.stderr(), why),
    }
}

// The first argument is the word `show`.
fn show(rt: &HostRuntime) {
    if !files::is_word(rt, SIGNATURE, b"show") {
        report::usage(rt.stderr());
        return;
    }
    let mut delta = [0u8; ROOM];
    let Some(d) = files::read(rt, SHOWN, &mut delta) else {
        return;
    };
    listing::show(rt, octets::part(&delta, 0, d));
}
