// Changes, by what becomes of the session.
ghost use Rattle.std.specs.Prelude.{◌≡◌};
ghost use Rattle.protocol.specs.Change.{tells, turns, asks, opens, settles, drops};
ghost use Rattle.protocol.specs.Files.{ignored};

use protocol::{Change, Due, Edit, FileRecord, News, Reply, SessionState, Status, Told};

// Nothing changes, and this is told.
pub(crate) fn tells(told: Told, reply: Option<Reply>) -> Change
    ensures { result ≡ tells told reply }
{
    Change {
        edit: Edit::Same,
        file: FileRecord::FREE,
        news: News::Tells(told),
        reply,
    }
}

// The rule ignores a command.
pub(crate) fn ignored() -> Change
    ensures { result ≡ ignored }
{
    tells(Told::Ignored, None)
}

// The session is in another state, told by nothing but the reply.
pub(crate) fn turns(state: SessionState, reply: Option<Reply>) -> Change
    ensures { result ≡ turns state reply }
{
    Change {
        edit: Edit::Turned(state),
        file: FileRecord::FREE,
        news: News::Tells(Told::Nothing),
        reply,
    }
}

// The session stays as it is, and this is asked.
pub(crate) fn asks(due: Due) -> Change
    ensures { result ≡ asks due }
{
    Change {
        edit: Edit::Same,
        file: FileRecord::FREE,
        news: News::Asks(due),
        reply: None,
    }
}

// A new file record at place j, and its open is asked, or its contents.
pub(crate) fn opens(j: usize, file: FileRecord, due: Due) -> Change
    ensures { result ≡ opens j file due }
{
    Change {
        edit: Edit::Filed(j),
        file,
        news: News::Asks(due),
        reply: None,
    }
}

// What the session owed is settled, and the status is all that happens.
pub(crate) fn settles(status: Status, reply: Option<Reply>) -> Change
    ensures { result ≡ settles status reply }
{
    Change {
        edit: Edit::Same,
        file: FileRecord::FREE,
        news: News::Clears(Told::Status(status)),
        reply,
    }
}

// The session is dropped, and what it owed is cleared.
pub(crate) fn drops(told: Told, reply: Option<Reply>) -> Change
    ensures { result ≡ drops told reply }
{
    Change {
        edit: Edit::Dropped,
        file: FileRecord::FREE,
        news: News::Clears(told),
        reply,
    }
}
