// The program's arguments. Number 0 is the program's name.
ghost use Rattle.std.specs.Io.{ReadsAtMost};

use std::env::{Env, FillError};
use std::io;

// The system's numbers for a missing argument and for one that the buffer has no room for.
const INVALID: i32 = 22;

const TOO_LONG: i32 = 36;

// Puts an argument at the start of the buffer, and answers its length; or, in the system's words, that
// it is missing or longer than the buffer.
pub fn argument(env: &impl Env, i: usize, buf: &mut [u8]) -> io::Result<usize>
    ensures { ReadsAtMost result buf.new }
{
    env.arg(i, buf).map_err(|error| match error {
        FillError::NotPresent => io::Error::from_raw_os_error(INVALID),
        FillError::TooLong => io::Error::from_raw_os_error(TOO_LONG),
    })
}

// How many arguments there are, the program's name among them.
pub fn argument_count(env: &impl Env) -> usize {
    (0..usize::MAX)
        .find(|i| is_missing(env, *i))
        .unwrap_or(usize::MAX)
}

fn is_missing(env: &impl Env, i: usize) -> bool {
    matches!(env.arg(i, &mut []), Err(FillError::NotPresent))
}
