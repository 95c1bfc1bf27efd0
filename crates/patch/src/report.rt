// What is said on standard error. Where it cannot be written, nothing more can be said.
use delta::{Refusal, Span};
use std::io::Stderr;
use streams::{say, say_hex, say_number};

pub(crate) fn usage(err: Stderr) {
    say(
        err,
        b"usage: patch SIGNATURE OLD DELTA [NEW], or patch show DELTA\n",
    );
}

pub(crate) fn refused(err: Stderr, why: Refusal) {
    say(err, b"refused ");
    say_number(err, u64::from(why.number()));
    say(err, b"\n");
}

// The hash's bytes in hex, `-` for one of no bytes; nothing where the delta has none.
pub(crate) fn hash(err: Stderr, hash: Option<Span>, delta: &[u8]) {
    let Some(span) = hash else {
        return;
    };
    let bytes = octets::part(delta, span.start, span.len);
    if bytes.is_empty() {
        say(err, b"-");
    }
    say_hex(err, bytes);
    say(err, b"\n");
}
