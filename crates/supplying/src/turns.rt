// Which session is supplied, and whether it is in turn.
ghost use Rattle.std.specs.Prelude.{◌≡◌};
ghost use Rattle.protocol.specs.Table.{first, has_id};
ghost use Rattle.protocol.specs.Supplies.{is_listing, request_at};
ghost use Rattle.supplying.specs.Turns.{is_part, id_for, concerned, in_turn};

use crate::{Given, Supplying};
use protocol::{Due, Session, SessionState};
use sessions::find::find;

// Whether it is a part, which concerns the session that asks for a file.
pub fn is_part(supplying: Supplying) -> bool
    ensures { result ≡ is_part supplying }
{
    matches!(supplying, Supplying::Part(_))
}

// The id of the session that anything else concerns.
pub fn id_in(supplying: Supplying, text: &[u8]) -> &[u8]
    ensures { result.now ≡ id_for supplying text.now }
{
    match supplying {
        Supplying::List(entry) => octets::part(text, entry.id.start, entry.id.len),
        Supplying::ListFailed(id, _, _) => octets::part(text, id.start, id.len),
        Supplying::Home => text,
        Supplying::Part(_) => &text[..0],
    }
}

// The place of the session that is concerned: for a part that of the one that asks for a file, for
// anything else that of the one with its id.
pub fn concerned(
    given: Given<'_>,
    owed: Option<(usize, Due)>,
    sessions: &[Session],
) -> Option<usize>
    ensures { result ≡ concerned given.entry.supplying owed given.entry.text.now
        (λ id. first (has_id id) sessions.now) }
{
    if is_part(given.supplying) {
        request_at(owed)
    } else {
        find(sessions, id_in(given.supplying, given.text))
    }
}

// Where it is in turn, by the state of the session that is concerned.
pub fn in_turn(supplying: Supplying, state: SessionState, found: Option<usize>) -> Option<usize>
    ensures { result ≡ in_turn supplying state found }
{
    if is_part(supplying) || is_listing(state) {
        found
    } else {
        None
    }
}

// Whether a session takes a listing and the home path.
fn is_listing(state: SessionState) -> bool
    ensures { result ≡ is_listing state }
{
    matches!(state, SessionState::Listing)
}

// The place of the session that asks for a file, where that is what is owed.
pub fn request_at(owed: Option<(usize, Due)>) -> Option<usize>
    ensures { result ≡ request_at owed }
{
    match owed {
        Some((i, Due::Request)) => Some(i),
        _ => None,
    }
}
