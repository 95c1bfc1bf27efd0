// A number in a buffer, in decimal.
ghost use Rattle.std.specs.Prelude.{◌≤◌, length};

use std::io::Write;

// Puts a number at the start of the buffer, and answers how many digits it has. Those for which there is no
// room are left out: 20 are enough for any number.
pub fn put_number(n: u64, buf: &mut [u8]) -> usize
    ensures { result ≤ length buf.new }
{
    let room = buf.len();
    let mut rest = &mut *buf;
    let _ = write!(rest, "{n}");
    let left = rest.len();
    room.saturating_sub(left)
}
