// The arguments: the session's id, and for each file its local path and the name that the console is told.
use std::env::{Env, FillError};

// One of them, of a file by the file's number from 0.
#[derive(Clone, Copy)]
pub enum Argument {
    Session,
    Local(usize),
    Name(usize),
}

impl Argument {
    // Where it stands. No argument has a place that cannot be counted.
    fn place(self) -> usize {
        match self {
            Argument::Session => 1,
            Argument::Local(k) => k.saturating_mul(2).saturating_add(2),
            Argument::Name(k) => k.saturating_mul(2).saturating_add(3),
        }
    }
}

// How many files there are in so many arguments, the program's name among them; none where the id is missing
// or a path has no name.
pub(crate) fn files(count: usize) -> Option<usize> {
    if count >= 4 && count % 2 == 0 {
        Some(count / 2 - 1)
    } else {
        None
    }
}

// Puts an argument at the start of the buffer, and answers its length. Of one that is longer than the
// buffer the first bytes fill it: what is cut here is too long in any case, and refused for that.
pub(crate) fn read(rt: &HostRuntime, argument: Argument, buf: &mut [u8]) -> usize {
    match rt.arg(argument.place(), buf) {
        Ok(n) => n,
        Err(FillError::TooLong) => buf.len(),
        Err(FillError::NotPresent) => 0,
    }
}
