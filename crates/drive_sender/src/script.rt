// The operations of a script, each a letter and its operands.
ghost use Rattle.std.specs.Prelude.{◌≤◌};

use script_parts::{byte, two_bytes};

// How long an operation is by its letter and its own operands; none for a letter that begins none.
pub(crate) fn claimed_length(operation: &[u8]) -> Option<usize> {
    match byte(operation, 0) {
        b's' => Some(2 + id_length(operation)),
        b'f' => Some(file_length(operation)),
        b'p' | b'l' | b'h' => Some(3 + two_bytes(operation, 1)),
        b'b' | b'c' | b'w' => Some(3),
        b'e' | b't' | b'n' => Some(1),
        _ => None,
    }
}

// A file's: its id, its name and its size.
fn file_length(operation: &[u8]) -> usize {
    let id = id_length(operation);
    12 + id + two_bytes(operation, 2 + id)
}

// How many bytes the id of a send or a file has.
pub(crate) fn id_length(operation: &[u8]) -> usize
    ensures { result ≤ 255 }
{
    usize::from(byte(operation, 1))
}
