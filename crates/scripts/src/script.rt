// The operations of a script, each a letter and its operands.
use crate::operands;
use script_parts::{byte, two_bytes};

// How long an operation is by its letter and its own operands; none for a letter that begins none, and
// for operands that are none.
pub(crate) fn claimed_length(operation: &[u8]) -> Option<usize> {
    match byte(operation, 0) {
        b'k' | b'u' | b't' | b'n' => Some(1),
        b'c' | b's' | b'r' | b'o' => Some(3),
        b'a' | b'd' | b'x' | b'y' => Some(2 + usize::from(byte(operation, 1))),
        b'f' | b'p' | b'z' => Some(3 + two_bytes(operation, 1)),
        b'e' => operands::code_length(operation),
        b'l' => operands::entry_length(operation),
        b'g' => operands::failure_length(operation),
        b'h' => Some(operands::home_length(operation)),
        _ => None,
    }
}
