// What no clause says: that a failed read in the middle is told, that short reads go on, and the words of an
// error.
use crate::said::words;
use crate::{put_number, read_all_from, read_from};
use std::io;
use std::io::{Error, ErrorKind, Read};

// Gives a byte at a time, and fails where so many were given.
#[derive(Drop)]
struct Drip {
    given: usize,
    fails_at: usize,
}

impl Read for Drip {
    fn read(&mut self, buf: &mut [u8]) -> io::Result<usize> {
        if self.given == self.fails_at {
            return Err(Error::from(ErrorKind::Other));
        }
        match buf.first_mut() {
            None => return Ok(0),
            Some(b) => *b = 7,
        }
        self.given = self.given.saturating_add(1);
        Ok(1)
    }
}

fn failing(fails_at: usize) -> Drip {
    Drip { given: 0, fails_at }
}

#[test]
fn failed_read_is_told(rt: HostRuntime) {
    let mut buf = [0u8; 4];
    assert!(rt; read_from(&mut failing(0), &mut buf).is_none());
    assert!(rt; read_all_from(&mut failing(2), &mut buf).is_none());
}

#[test]
fn short_reads_go_on(rt: HostRuntime) {
    let mut buf = [0u8; 4];
    assert!(rt; read_from(&mut failing(9), &mut buf) == Some(1));
    assert!(rt; read_all_from(&mut failing(9), &mut buf) == Some(4));
    assert!(rt; buf[3] == 7);
    let mut input: &[u8] = b"abc";
    assert!(rt; read_all_from(&mut input, &mut buf) == Some(3));
}

#[test]
fn error_has_the_systems_words(rt: HostRuntime) {
    let mut room = [0u8; 320];
    let missing = words(Error::from_raw_os_error(2), &mut room);
    assert!(rt; missing == b"No such file or directory".as_slice());
}

#[test]
fn number_has_its_digits(rt: HostRuntime) {
    let mut buf = [0u8; 20];
    assert!(rt; put_number(0, &mut buf) == 1);
    assert!(rt; buf[0] == b'0');
    assert!(rt; put_number(4096, &mut buf) == 4);
    assert!(rt; &buf[..4] == b"4096".as_slice());
    assert!(rt; put_number(u64::MAX, &mut buf) == 20);
    assert!(rt; buf == *b"18446744073709551615");
    assert!(rt; put_number(4096, &mut buf[..2]) == 2);
}
