// Finding: a session by its id, and free room for a new one. The sessions are lent: a callee copies what
// it is given.
ghost use Rattle.std.specs.Prelude.{◌≡◌, not};
ghost use Rattle.protocol.specs.Table.{first, has_id, is_present, is_absent, find_session};

use protocol::{Session, SessionState, Table};

pub fn find_session(table: Table, id: &[u8]) -> Option<usize>
    ensures { result ≡ find_session table id.now }
{
    find(&table.sessions, id)
}

// The place of the session with an id. One function for this search and that of `free`, or of files, would
// need a test handed in or a trait with laws: no plainer than a line each.
pub fn find(sessions: &[Session], id: &[u8]) -> Option<usize>
    ensures { result ≡ first (has_id id.now) sessions.now }
{
    sessions.iter().position(|session| has_id(session, id))
}

// The first place that no session has.
pub fn free(sessions: &[Session]) -> Option<usize>
    ensures { result ≡ first is_absent sessions.now }
{
    sessions.iter().position(|session| is_absent(session.state))
}

// Whether the session is present and has the id.
pub fn has_id(session: &Session, id: &[u8]) -> bool
    ensures { result ≡ has_id id.now session.now }
{
    is_present(session.state) && session.id.is(id)
}

fn is_present(state: SessionState) -> bool
    ensures { result ≡ is_present state }
{
    !matches!(state, SessionState::Absent)
}

pub fn is_absent(state: SessionState) -> bool
    ensures { result ≡ not (is_present state) }
{
    !is_present(state)
}
