// The lines on standard error.
use crate::arguments;
use command::letters;
use command::letters::Class;
use std::io::Stderr;
use streams::{say, say_end, say_number};

pub(crate) fn counted(err: Stderr, words: &[u8], n: u64) {
    say(err, words);
    say_number(err, n);
    say_end(err);
}

// The path of argument k, as it was given.
pub(crate) fn file(rt: &HostRuntime, words: &[u8], k: usize) {
    let err = rt.stderr();
    let mut path = [0u8; 4096];
    let n = arguments::read(rt, k, &mut path);
    say(err, words);
    say(err, octets::part(&path, 0, n));
    say_end(err);
}

// The office's text is shown up to a byte that a terminal might take for a command.
pub(crate) fn heard(err: Stderr, words: &[u8], text: &[u8]) {
    let n = letters::pass(Class::Text, text, 0);
    say(err, words);
    say(err, octets::part(text, 0, n));
    say_end(err);
}
