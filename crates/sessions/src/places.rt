// A place of the table. One outside it is free room.
ghost use Rattle.std.specs.Prelude.{◌≡◌};
ghost use Rattle.protocol.specs.Table.{absent_session, session_at};

use protocol::{FileRecord, Id, Session, SessionState, Table};

pub fn session_at(table: Table, i: usize) -> Session
    ensures { result ≡ session_at table i }
{
    if i < Table::SESSIONS {
        table.sessions[i]
    } else {
        emptied(table.sessions[0])
    }
}

// An absent session, stored over another, free room by free room. Measured on a part of a file, by value:
// `fill` took a third more time, and `Session::ABSENT` in one arm of a choice 5 % more instructions, since
// it takes the sessions of every arm apart.
pub(crate) fn emptied(session: Session) -> Session
    ensures { result ≡ absent_session }
{
    let mut files = session.files;
    for j in 0..Session::FILES {
        files[j] = FileRecord::FREE;
    }
    Session {
        state: SessionState::Absent,
        quiet: 0,
        id: Id::NONE,
        wanted: 0,
        started: 0,
        done_bytes: 0,
        files,
    }
}
