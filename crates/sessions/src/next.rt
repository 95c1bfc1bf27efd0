// What a step leaves of the table: one session at its place, and what is owed. The table itself stays
// where it lies, and takes this once, at the end of a call.
ghost use Rattle.std.specs.Prelude.{◌≡◌};
ghost use Rattle.protocol.specs.Change.{telling, stepped};
ghost use Rattle.sessions.specs.Leaving.{takes, taken, next_by};

use crate::changes::{edited, owed_after, told_by};
use command::Place;
use protocol::{Change, Due, Reply, Session, Table, Told};

// The session that then stands at a place, what is then owed, what is told, and the reply.
#[derive(Clone, Copy)]
pub struct Next {
    pub place: usize,
    pub session: Session,
    pub owed: Option<(usize, Due)>,
    pub told: Told,
    pub reply: Option<Reply>,
}

// The table with the session at its place. Nothing can be put outside the table.
pub fn put(table: Table, next: Next) -> Table
    ensures { result ≡ takes table next }
{
    let mut sessions = table.sessions;
    if next.place < Table::SESSIONS {
        sessions[next.place] = next.session;
    }
    Table {
        sessions,
        owed: next.owed,
    }
}

// The session at place i by its change, its payload standing at a place of the scratch.
pub fn step(
    session: Session,
    i: usize,
    owed: Option<(usize, Due)>,
    payload: Place,
    change: Change,
) -> Next
    ensures { result ≡ next_by session i owed payload change }
{
    Next {
        place: i,
        session: edited(session, change.file, change.edit),
        owed: owed_after(owed, i, change.news),
        told: told_by(payload, change.news),
        reply: change.reply,
    }
}

// Nothing changes: a session is put back as it was.
pub(crate) fn still(table: Table, told: Told, reply: Option<Reply>) -> Next
    ensures { taken table result ≡ stepped table told reply }
{
    Next {
        place: 0,
        session: table.sessions[0],
        owed: table.owed,
        told,
        reply,
    }
}

// Nothing but something told.
pub fn tell(table: Table, told: Told) -> Next
    ensures { taken table result ≡ telling table told }
{
    still(table, told, None)
}
