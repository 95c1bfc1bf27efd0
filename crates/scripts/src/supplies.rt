// What a script supplies in receive sessions. The strings have their places in the operation.
use crate::operands;
use command::Place;
use script_parts::byte;
use supplying::Supplying;

pub(crate) fn supplying_of(operation: &[u8]) -> Supplying {
    match byte(operation, 0) {
        b'l' => Supplying::List(operands::entry(operation)),
        b'g' => Supplying::ListFailed(
            operands::session_id(operation),
            operands::path_id(operation),
            operands::failure(operands::code(operation)),
        ),
        b'h' => Supplying::Home,
        b'p' => Supplying::Part(false),
        _ => Supplying::Part(true),
    }
}

// The session's id for the home path, and else the whole operation.
pub(crate) fn text_of(operation: &[u8]) -> &[u8] {
    match byte(operation, 0) {
        b'h' => bytes_at(operation, operands::session_id(operation)),
        _ => operation,
    }
}

// The home path, or a part, and else the whole operation.
pub(crate) fn contents_of(operation: &[u8]) -> &[u8] {
    match byte(operation, 0) {
        b'h' => bytes_at(operation, operands::home(operation)),
        b'p' | b'z' => bytes_at(operation, operands::part(operation)),
        _ => operation,
    }
}

fn bytes_at(operation: &[u8], place: Place) -> &[u8] {
    octets::part(operation, place.start, place.len)
}
