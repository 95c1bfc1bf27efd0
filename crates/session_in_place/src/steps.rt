// What a step leaves of the one session that a call copies out of the table.
ghost use Rattle.std.specs.Prelude.{◌≡◌, ◌<◌};
ghost use Rattle.octets.specs.Outcome.{outcome};
ghost use Rattle.session_in_place.specs.Steps.{place_of, staying, left_by};

use protocol::{Due, Reply, Session, Table, Told};
use sessions::next::Next;
pub use supplying::Left;

// The place of the session that is copied out and put back: that of the one that is concerned, or the
// first where there is none in the table.
pub fn place_of(found: Option<usize>) -> usize
    ensures place { result ≡ place_of found }
    ensures inside { result < 4 }
{
    match found {
        Some(i) if i < Table::SESSIONS => i,
        _ => 0,
    }
}

// The session is put back as it was, and what is owed stays.
pub(crate) fn stay(
    session: Session,
    owed: Option<(usize, Due)>,
    told: Told,
    reply: Option<Reply>,
) -> Next
    ensures { result ≡ staying session owed told reply }
{
    Next {
        place: 0,
        session,
        owed,
        told,
        reply,
    }
}

// A step's end, its reply stored. Inlined, since a call would copy the session twice more.
#[inline(always)]
#[tactic(auto, unfolding(crate::specs::Steps::left_by))]
pub(crate) fn leave(next: Next, buffer: &mut [u8]) -> Left
    ensures { outcome result buffer.new ≡ left_by next buffer.old }
{
    Left {
        session: next.session,
        owed: next.owed,
        told: next.told,
        written: reply::send(next.reply, buffer),
    }
}
