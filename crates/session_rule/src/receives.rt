// The commands of a receive session: the paths that it names, and the files that it asks for.
ghost use Rattle.std.specs.Prelude.{◌+◌, cond, ◌≡◌, ltb};
ghost use Rattle.protocol.specs.Change.{change};
ghost use Rattle.protocol.specs.Files.{if_new};
ghost use Rattle.protocol.specs.Receives.{named, path_named, path_checked, request_of, out_of_turn, request_fails};
ghost use Rattle.protocol.specs.Table.{no_file, first, is_free};

use crate::changes::{opens, settles, tells};
use crate::file::{file_status, if_new, opening};
use crate::files::{file_at, free_file};
use crate::replies::file_reply;
use protocol::refusals::OUT_OF_TURN;
use protocol::{Change, Due, Edit, FileRecord, FileState, News, Session, Status, Told};

// "an empty or known fid or a bad name gets 01's status and doesn't count"
pub(crate) fn path(session: Session, id: &[u8], name: &[u8]) -> Change
    ensures { result ≡ if_new session id.now (path_checked session id.now name.now) }
{
    if_new(session, id, checked(session, id, name))
}

// The path's name.
#[tactic(auto, unfolding(protocol::specs::Receives::path_checked))]
fn checked(session: Session, id: &[u8], name: &[u8]) -> Change
    ensures { result ≡ path_checked session id.now name.now }
{
    if pathname::is_valid(name) {
        return counted(session, id);
    }
    file_status(session, id, Status::Einval)
}

// A good path counts. Paths fill the records in order, so that the one at place j is number j + 1.
fn counted(session: Session, id: &[u8]) -> Change
    ensures { result ≡ path_named session id.now (first is_free session.files) }
{
    match free_file(&session.files) {
        None => file_status(session, id, Status::Emfile),
        Some(j) => path_at(session.wanted, j, id),
    }
}

// "Only after the last is the user asked": with it the session waits, and keeps no path.
fn path_at(wanted: u64, j: usize, id: &[u8]) -> Change
    ensures { result ≡ cond (ltb (j + 1) wanted)
        (change (Edit.Filed j) (named id.now) (News.Tells Told.Path) None)
        (change Edit.Waits no_file (News.Tells Told.LastPath) None) }
{
    if are_more(j, wanted) {
        return Change {
            edit: Edit::Filed(j),
            file: named(id),
            news: News::Tells(Told::Path),
            reply: None,
        };
    }
    Change {
        edit: Edit::Waits,
        file: FileRecord::FREE,
        news: News::Tells(Told::LastPath),
        reply: None,
    }
}

// Whether more paths are asked for than those up to place j.
fn are_more(j: usize, wanted: u64) -> bool
    ensures { result ≡ ltb (j + 1) wanted }
{
    (j as u64) < wanted.saturating_sub(1)
}

// "After that OK a file command is a request, without 01's checks, and an ask": its file is the
// session's first.
pub(crate) fn request(id: &[u8]) -> Change
    ensures { result ≡ request_of id.now }
{
    opens(0, named(id), Due::Request)
}

// A status is all that the request gets.
pub(crate) fn fail_request(session: Session, status: Status) -> Change
    ensures { result ≡ request_fails status session }
{
    settles(
        status,
        Some(file_reply(status, session, file_at(&session.files, 0), 0)),
    )
}

// "a new call out of turn or done for a request 18"
pub(crate) fn out_of_turn() -> Change
    ensures { result ≡ out_of_turn }
{
    tells(Told::Refused(OUT_OF_TURN), None)
}

// A path that is named, or a file that is asked for.
fn named(id: &[u8]) -> FileRecord
    ensures { result ≡ named id.now }
{
    FileRecord {
        state: FileState::Named,
        ..opening(id, 0)
    }
}
