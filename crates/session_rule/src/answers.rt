// The console's answers to what is due for a session.
ghost use Rattle.std.specs.Prelude.{◌≡◌};
ghost use Rattle.protocol.specs.Rule.{done_by, failed_by, unlisted_by};

use crate::changes::drops;
use crate::receives::{fail_request, out_of_turn};
use crate::replies::session_reply;
use crate::settling::{fail_file, settle, settle_write};
use protocol::{Change, Due, Failure, FileState, Session, Status, Told};

// The console has done what was due.
#[tactic(auto, unfolding(protocol::specs::Rule::done_by))]
pub fn done(session: Session, due: Due) -> Change
    ensures { result ≡ done_by session due }
{
    match due {
        Due::OpenFile(j) => settle(session, j, FileState::Started, 0, Status::Started, 0),
        Due::OpenDirectory(j) => settle(session, j, FileState::Done, 0, Status::Ok, 0),
        Due::Write(j, n) => settle_write(session, j, n, FileState::Started, Status::Progress),
        Due::WriteLast(j, n) => settle_write(session, j, n, FileState::Done, Status::Ok),
        Due::Commit => drops(Told::Committed, None),
        Due::Request => out_of_turn(),
    }
}

// The console has failed to do what was due.
#[tactic(auto, unfolding(protocol::specs::Rule::failed_by))]
pub fn failed(failure: Failure, session: Session, due: Due) -> Change
    ensures { result ≡ failed_by failure session due }
{
    let status = Status::from(failure);
    match due {
        Due::OpenFile(j) | Due::OpenDirectory(j) | Due::Write(j, _) | Due::WriteLast(j, _) => {
            fail_file(session, j, status)
        }
        Due::Commit => drops(Told::Discarded, Some(session_reply(status, session))),
        Due::Request => fail_request(session, status),
    }
}

// The file asked for is "a directory or not listed, which gets EINVAL".
#[tactic(auto, unfolding(protocol::specs::Rule::unlisted_by))]
pub fn unlisted(session: Session, due: Due) -> Change
    ensures { result ≡ unlisted_by session due }
{
    match due {
        Due::Request => fail_request(session, Status::Einval),
        _ => out_of_turn(),
    }
}
