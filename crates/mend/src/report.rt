// What is said on standard error. Where it cannot be written, nothing more can be said.
use recordings::{Mended, Refusal};
use std::io::Stderr;
use streams::{say, say_number};

// A line for each of the first n rows.
pub(crate) fn rows(err: Stderr, list: &[usize], n: usize) {
    for &[start, len, why] in list.as_chunks::<{ Mended::ROW }>().0.iter().take(n) {
        row(err, start, len, why);
    }
}

// Start, length, and why.
fn row(err: Stderr, start: usize, len: usize, why: usize) {
    say_number(err, start as u64);
    say(err, b" ");
    say_number(err, len as u64);
    if why == 0 {
        say(err, b" outside\n");
    } else {
        say(err, b" refusal ");
        say_number(err, why as u64);
        say(err, b"\n");
    }
}

pub(crate) fn total(err: Stderr, kept: usize, dropped: usize, rows: usize) {
    say(err, b"kept ");
    say_number(err, kept as u64);
    say(err, b" bytes, dropped ");
    say_number(err, dropped as u64);
    say(err, b" bytes in ");
    say_number(err, rows as u64);
    say(err, b" stretches\n");
}

pub(crate) fn refused(err: Stderr, refusal: Refusal) {
    say(err, b"refused ");
    say_number(err, u64::from(refusal.number()));
    say(err, b"\n");
}
