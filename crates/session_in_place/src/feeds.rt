// A feed in two halves: what is heard, for which no session is needed, and the step of the session that
// is concerned.
ghost use Rattle.std.specs.Prelude.{◌≡◌};
ghost use Rattle.octets.specs.Outcome.{outcome};
ghost use Rattle.protocol.specs.Actions.{kind_of};
ghost use Rattle.protocol.specs.Sessions.{asked_session, id_in};
ghost use Rattle.session_in_place.specs.Feeds.{unheard, new_seat, seat_of, seat, heard_in, hearing, hear_of};
ghost use Rattle.session_in_place.specs.Feeds.{status_in, turned_away, seated, new_in, obey_in, obey_at, act_of};

use crate::steps::{Left, leave, stay};
use command::{Action, Command};
use decimal::Number;
use frames::{Framing, Report, Scanned};
use protocol::refusals::{ASK_OWED, SHORT_BUFFER};
use protocol::{Due, Kind, Session, SessionState, Status, Told};
use receiver::acts;
use receiver::replies::is_short;
use session_rule::actions::look_up;
use session_rule::replies::session_reply;
use sessions::absent::{asked, bad_paths, naming};
use sessions::find::{find, free};
use sessions::next::Next;

// What a piece says: the framing afterwards, how much of it is used, where its text stands; the command
// that was read, or what is told where none was; and the session that the command concerns.
#[derive(Clone, Copy)]
pub struct Heard {
    pub framing: Framing,
    pub consumed: usize,
    pub report: Report,
    pub said: Result<Command, Told>,
    pub found: Option<usize>,
}

// ---- The first half.
// 9 and then 10, the scan, and its text read.
#[tactic(auto, unfolding(crate::specs::Feeds::hear_of))]
pub fn hear(
    framing: Framing,
    owed: Option<(usize, Due)>,
    sessions: &[Session],
    piece: &[u8],
    carry: &mut [u8],
    scratch: &mut [u8],
    room: usize,
) -> Heard
    ensures { hearing result carry.new scratch.new
        ≡ hear_of framing owed sessions.now piece.now carry.old scratch.old room }
{
    if is_short(carry.len(), scratch.len(), room) {
        return unheard(framing, SHORT_BUFFER);
    }
    if owed.is_some() {
        return unheard(framing, ASK_OWED);
    }
    let scanned = frames::scan(framing, piece, carry);
    let text = frames::text(piece, carry, scanned.report);
    listen(scanned, sessions, text, scratch)
}

// "nothing consumed, all memory as before"
fn unheard(framing: Framing, number: u8) -> Heard
    ensures { result ≡ unheard framing number }
{
    Heard {
        framing,
        consumed: 0,
        report: Report::Nothing,
        said: Err(Told::Refused(number)),
        found: None,
    }
}

#[tactic(auto, unfolding(crate::specs::Feeds::heard_in))]
fn listen(scanned: Scanned, sessions: &[Session], text: &[u8], scratch: &mut [u8]) -> Heard
    ensures { outcome result scratch.new ≡ heard_in scanned sessions.now text.now scratch.old }
{
    let said = acts::hear(scanned.report, text, scratch);
    Heard {
        framing: scanned.framing,
        consumed: scanned.consumed,
        report: scanned.report,
        said,
        found: seat(said, sessions, text),
    }
}

// The session that what was said concerns: none, where no command was read.
fn seat(said: Result<Command, Told>, sessions: &[Session], text: &[u8]) -> Option<usize>
    ensures { result ≡ seat said sessions.now text.now }
{
    match said {
        Ok(command) => seat_of(sessions, command, text),
        Err(_) => None,
    }
}

// The session with the command's id, or free room where it is to be a new one.
#[tactic(auto, unfolding(crate::specs::Feeds::seat_of))]
fn seat_of(sessions: &[Session], command: Command, text: &[u8]) -> Option<usize>
    ensures { result ≡ seat_of sessions.now command text.now }
{
    let id = octets::part(text, command.id.start, command.id.len);
    match find(sessions, id) {
        Some(i) => Some(i),
        None => new_seat(sessions, command.action),
    }
}

fn new_seat(sessions: &[Session], action: Action) -> Option<usize>
    ensures { result ≡ new_seat sessions.now (kind_of SessionState.Absent action) }
{
    match look_up(SessionState::Absent, action) {
        Kind::Ask | Kind::Receive => free(sessions),
        _ => None,
    }
}

// ---- The second half.
// The step of the session that was copied out, by the command that was heard, and its reply.
#[tactic(auto, unfolding(crate::specs::Feeds::act_of))]
pub fn act(
    found: Option<usize>,
    session: Session,
    owed: Option<(usize, Due)>,
    command: Command,
    text: &[u8],
    scratch: &[u8],
    reply: &mut [u8],
) -> Left
    ensures { outcome result reply.new ≡ act_of found session owed command text.now scratch.now reply.old }
{
    leave(obey_at(found, session, owed, command, text, scratch), reply)
}

fn obey_at(
    found: Option<usize>,
    session: Session,
    owed: Option<(usize, Due)>,
    command: Command,
    text: &[u8],
    scratch: &[u8],
) -> Next
    ensures { result ≡ obey_at found session owed command text.now scratch.now }
{
    match found {
        None => turn_away(session, owed, command, text),
        Some(i) => obey_in(i, session, owed, command, text, scratch),
    }
}

// Free room is for a new session.
#[tactic(auto, unfolding(crate::specs::Feeds::obey_in))]
fn obey_in(
    i: usize,
    session: Session,
    owed: Option<(usize, Due)>,
    command: Command,
    text: &[u8],
    scratch: &[u8],
) -> Next
    ensures { result ≡ obey_in (kind_of SessionState.Absent command.action) i session owed command text.now
        scratch.now }
{
    if matches!(session.state, SessionState::Absent) {
        return begin(
            look_up(SessionState::Absent, command.action),
            i,
            session,
            owed,
            asked_by(command, text),
            command.size,
        );
    }
    sessions::present(session, i, owed, command, text, scratch)
}

// The session that a command asks for.
fn asked_by(command: Command, text: &[u8]) -> Session
    ensures { result ≡ asked_session command.quiet (id_in command text.now) }
{
    asked(
        command.quiet,
        octets::part(text, command.id.start, command.id.len),
    )
}

// A send session waits for the user; a receive session names its paths, and where their number is bad,
// the room stays free. No other kind comes here.
fn begin(
    kind: Kind,
    i: usize,
    session: Session,
    owed: Option<(usize, Due)>,
    asked: Session,
    paths: Number,
) -> Next
    ensures { result ≡ new_in kind i session owed asked paths }
{
    if !matches!(kind, Kind::Receive) {
        return seated(i, asked, owed, Told::Asked);
    }
    if bad_paths(paths) {
        return status(session, owed, asked, Status::Einval);
    }
    seated(i, naming(asked, paths.magnitude), owed, Told::Naming)
}

fn seated(i: usize, session: Session, owed: Option<(usize, Due)>, told: Told) -> Next
    ensures { result ≡ seated i session owed told }
{
    Next {
        place: i,
        session,
        owed,
        told,
        reply: None,
    }
}

// A command that concerns no session and gets none: "four present: EBUSY", or by the action table.
#[tactic(auto, unfolding(crate::specs::Feeds::turned_away))]
fn turn_away(session: Session, owed: Option<(usize, Due)>, command: Command, text: &[u8]) -> Next
    ensures { result ≡ turned_away session owed (asked_session command.quiet (id_in command text.now))
        (kind_of SessionState.Absent command.action) }
{
    match look_up(SessionState::Absent, command.action) {
        Kind::Ask | Kind::Receive => {
            status(session, owed, asked_by(command, text), Status::Ebusy)
        }
        _ => stay(session, owed, Told::Ignored, None),
    }
}

// A status about a session that is not there.
fn status(session: Session, owed: Option<(usize, Due)>, absent: Session, status: Status) -> Next
    ensures { result ≡ status_in session owed absent status }
{
    stay(
        session,
        owed,
        Told::Status(status),
        Some(session_reply(status, absent)),
    )
}
