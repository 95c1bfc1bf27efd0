// The operations of a script, each a letter and its operands.
use script_parts::{byte, two_bytes};

// How long an operation is by its letter and its own operands; none for a letter that begins none.
pub(crate) fn claimed_length(operation: &[u8]) -> Option<usize> {
    match byte(operation, 0) {
        b's' | b'o' | b'd' => Some(3 + two_bytes(operation, 1)),
        b'S' | b'O' | b'D' => Some(6),
        b'n' | b'h' | b'i' | b'm' | b'a' | b'x' => Some(1),
        b'r' => Some(5),
        b'b' => Some(3),
        b'w' => Some(9),
        b'l' => Some(13),
        _ => None,
    }
}
