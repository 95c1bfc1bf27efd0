// A command of a session that is present, by the action table.
ghost use Rattle.std.specs.Prelude.{cond, ◌≡◌};
ghost use Rattle.protocol.specs.Change.{tells, drops};
ghost use Rattle.protocol.specs.Files.{request};
ghost use Rattle.protocol.specs.Replies.{session_reply};
ghost use Rattle.protocol.specs.Rule.{is_open, drop_told, obeyed_by};

use crate::actions::look_up;
use crate::changes::{drops, ignored, tells};
use crate::data::part;
use crate::file::file;
use crate::finish::finish;
use crate::receives::{path, request};
use crate::replies::session_reply;
use command::Command;
use protocol::{Change, Kind, Session, SessionState, Status, Told};

// A command, with its file's id and its name.
#[tactic(auto, unfolding(protocol::specs::Rule::obeyed_by, protocol::specs::Receives::path_of))]
pub fn obey(session: Session, command: Command, id: &[u8], name: &[u8]) -> Change
    ensures { result ≡ obeyed_by session (request command id.now name.now) }
{
    match look_up(session.state, command.action) {
        Kind::Invalid => reject(session),
        Kind::Cancel => cancel(session),
        Kind::Withdraw => drops(drop_told(session.state), None),
        Kind::File => file(session, command, id, name),
        Kind::Data => part(session, false, id, command.payload.len),
        Kind::EndData => part(session, true, id, command.payload.len),
        Kind::Finish => finish(session),
        Kind::Path => path(session, id, name),
        Kind::Request => request(id),
        _ => ignored(),
    }
}

// "EINVAL, nothing changed"
fn reject(session: Session) -> Change
    ensures { result ≡ tells (Told.Status Status.Einval) (Some (session_reply Status.Einval session)) }
{
    tells(
        Told::Status(Status::Einval),
        Some(session_reply(Status::Einval, session)),
    )
}

// "dropped, CANCELED"
fn cancel(session: Session) -> Change
    ensures { result ≡ drops (drop_told session) (Some (session_reply Status.Canceled session)) }
{
    drops(
        drop_told(session.state),
        Some(session_reply(Status::Canceled, session)),
    )
}

// "an asked one as withdrawn, an open one .. as discarded"
fn drop_told(state: SessionState) -> Told
    ensures { result ≡ cond (is_open state) Told.Discarded Told.Withdrawn }
{
    match state {
        SessionState::Open | SessionState::Listing | SessionState::Serving => Told::Discarded,
        _ => Told::Withdrawn,
    }
}
