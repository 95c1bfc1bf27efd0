// A command whose session is absent: a new session waits for the user or names its paths, or a status
// is replied.
ghost use Rattle.std.specs.Prelude.{cond, ◌≡◌};
ghost use Rattle.protocol.specs.Table.{put_session};
ghost use Rattle.protocol.specs.Actions.{kind_of};
ghost use Rattle.protocol.specs.Change.{telling};
ghost use Rattle.protocol.specs.Receives.{bad_paths};
ghost use Rattle.protocol.specs.Sessions.{asked_session, naming_session, absent_status, absent_result};
ghost use Rattle.sessions.specs.Leaving.{taken};

use crate::find::free;
use crate::next::{Next, still, tell};
use command::Action;
use decimal::Number;
use protocol::{Id, Kind, Session, SessionState, Status, Table, Told};
use session_rule::actions::look_up;
use session_rule::replies::session_reply;

// What a command does, by its action, its quiet, its size and its id.
pub(crate) fn absent(table: Table, action: Action, quiet: u64, size: Number, id: &[u8]) -> Next
    ensures { taken table result ≡ absent_result table (asked_session quiet id.now) size (kind_of SessionState.Absent action) }
{
    let kind = look_up(SessionState::Absent, action);
    if !matches!(kind, Kind::Ask | Kind::Receive) {
        return tell(table, Told::Ignored);
    }
    let session = asked(quiet, id);
    match free(&table.sessions) {
        None => absent_status(table, session, Status::Ebusy),
        Some(i) => match kind {
            Kind::Receive => receive_at(table, i, session, size),
            _ => placed(table, i, session, Told::Asked),
        },
    }
}

// A new session at place i that names its paths: "any other `sz` gives EINVAL, full places EBUSY before
// that".
fn receive_at(table: Table, i: usize, session: Session, paths: Number) -> Next
    ensures { taken table result ≡ cond (bad_paths paths) (absent_status table session Status.Einval)
        (telling (put_session table i (naming_session session paths.magnitude)) Told.Naming) }
{
    if bad_paths(paths) {
        return absent_status(table, session, Status::Einval);
    }
    placed(table, i, naming(session, paths.magnitude), Told::Naming)
}

// All but "`sz` from 1 to 32".
pub fn bad_paths(paths: Number) -> bool
    ensures { result ≡ bad_paths paths }
{
    paths.negative || paths.magnitude == 0 || paths.magnitude > 32
}

// A new session at place i, and nothing else but something told.
fn placed(table: Table, i: usize, session: Session, told: Told) -> Next
    ensures { taken table result ≡ telling (put_session table i session) told }
{
    Next {
        place: i,
        session,
        owed: table.owed,
        told,
        reply: None,
    }
}

// A status about a session that is not there: the command's own quiet counts.
fn absent_status(table: Table, session: Session, status: Status) -> Next
    ensures { taken table result ≡ absent_status table session status }
{
    still(
        table,
        Told::Status(status),
        Some(session_reply(status, session)),
    )
}

// The session that `send` makes.
pub fn asked(quiet: u64, id: &[u8]) -> Session
    ensures { result ≡ asked_session quiet id.now }
{
    Session {
        state: SessionState::Asked,
        quiet,
        id: Id::of(id),
        ..Session::ABSENT
    }
}

// The session that `receive` makes of it, which asks for so many paths.
pub fn naming(session: Session, wanted: u64) -> Session
    ensures { result ≡ naming_session session wanted }
{
    Session {
        state: SessionState::Naming,
        quiet: session.quiet,
        id: session.id,
        wanted,
        ..Session::ABSENT
    }
}
