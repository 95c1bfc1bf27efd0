// A session's change: the session edited, what is owed afterwards, and what is told.
ghost use Rattle.std.specs.Prelude.{◌≡◌};
ghost use Rattle.protocol.specs.Change.{edited, cleared, owed_after, ask_of, told_by};
ghost use Rattle.protocol.specs.Table.{waiting, put_file};

use crate::numbers::{done_bytes_with, started_with};
use crate::places::emptied;
use command::Place;
use protocol::{Ask, Due, Edit, FileRecord, News, Session, SessionState, Told};

pub(crate) fn edited(session: Session, file: FileRecord, edit: Edit) -> Session
    ensures { result ≡ edited session file edit }
{
    match edit {
        Edit::Same => session,
        Edit::Turned(state) => Session { state, ..session },
        Edit::Filed(j) => put_file(session, j, file),
        Edit::Waits => waiting(session),
        Edit::Dropped => emptied(session),
    }
}

// "Only after the last is the user asked": it waits, and its paths have been told, so that none is kept.
fn waiting(session: Session) -> Session
    ensures { result ≡ waiting session }
{
    Session {
        state: SessionState::Waiting,
        quiet: session.quiet,
        id: session.id,
        wanted: session.wanted,
        ..emptied(session)
    }
}

// The one place that changes a session's files, and the numbers kept of them.
fn put_file(session: Session, j: usize, file: FileRecord) -> Session
    ensures { result ≡ put_file session j file }
{
    if j < Session::FILES {
        let mut files = session.files;
        let old = files[j];
        files[j] = file;
        Session {
            started: started_with(session.started, old, file),
            done_bytes: done_bytes_with(session.done_bytes, old, file),
            files,
            ..session
        }
    } else {
        session
    }
}

// What is owed afterwards, the session's place being i.
pub(crate) fn owed_after(owed: Option<(usize, Due)>, i: usize, news: News) -> Option<(usize, Due)>
    ensures { result ≡ owed_after owed i news }
{
    match news {
        News::Tells(_) => owed,
        News::Clears(_) => clear(i, owed),
        News::Asks(due) => Some((i, due)),
    }
}

// What the session at place i owed is cleared, and nothing that another owes.
fn clear(i: usize, owed: Option<(usize, Due)>) -> Option<(usize, Due)>
    ensures { result ≡ cleared i owed }
{
    match owed {
        Some((k, _)) if k == i => None,
        _ => owed,
    }
}

pub(crate) fn told_by(payload: Place, news: News) -> Told
    ensures { result ≡ told_by payload news }
{
    match news {
        News::Tells(told) | News::Clears(told) => told,
        News::Asks(due) => Told::Ask(ask_of(payload, due)),
    }
}

fn ask_of(payload: Place, due: Due) -> Ask
    ensures { result ≡ ask_of payload due }
{
    match due {
        Due::OpenFile(_) | Due::OpenDirectory(_) => Ask::Open,
        Due::Write(_, _) => Ask::Write(payload),
        Due::WriteLast(_, _) => Ask::WriteLast(payload),
        Due::Commit => Ask::Commit,
        Due::Request => Ask::Request,
    }
}
