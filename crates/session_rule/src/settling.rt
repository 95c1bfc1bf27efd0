// A file record moved and put back, with a status about it.
ghost use Rattle.std.specs.Prelude.{◌≡◌};
ghost use Rattle.protocol.specs.Change.{files};
ghost use Rattle.protocol.specs.Files.{settled, failed_file};
ghost use Rattle.protocol.specs.Replies.{file_reply};
ghost use Rattle.protocol.specs.Rule.{grown};
ghost use Rattle.protocol.specs.Table.{moved};

use crate::counts::grow;
use crate::files::file_at;
use crate::replies::file_reply;
use protocol::{Change, Edit, FileRecord, FileState, News, Session, Status, Told};

// The file at place j moves to a state with a count, and a status with a size is replied.
pub(crate) fn settle(
    session: Session,
    j: usize,
    state: FileState,
    count: u64,
    status: Status,
    size: u64,
) -> Change
    ensures { result ≡ settled session j state count status size }
{
    put_back(
        session,
        j,
        file_at(&session.files, j),
        state,
        count,
        status,
        size,
    )
}

// A part of n bytes was written: the count grows, and is replied.
pub(crate) fn settle_write(
    session: Session,
    j: usize,
    n: usize,
    state: FileState,
    status: Status,
) -> Change
    ensures { result ≡ settled session j state (grown session j n) status (grown session j n) }
{
    let file = file_at(&session.files, j);
    let count = grow(file.count, n);
    put_back(session, j, file, state, count, status, count)
}

// "record failed", with its status
pub(crate) fn fail_file(session: Session, j: usize, status: Status) -> Change
    ensures { result ≡ failed_file session j status }
{
    let file = file_at(&session.files, j);
    put_back(session, j, file, FileState::Failed, file.count, status, 0)
}

// The record, moved, is put back at place j, and a status with a size is replied.
fn put_back(
    session: Session,
    j: usize,
    file: FileRecord,
    state: FileState,
    count: u64,
    status: Status,
    size: u64,
) -> Change
    ensures { result ≡ files j (moved file state count) status (Some (file_reply status session file size)) }
{
    Change {
        edit: Edit::Filed(j),
        file: FileRecord {
            state,
            count,
            ..file
        },
        news: News::Clears(Told::Status(status)),
        reply: Some(file_reply(status, session, file, size)),
    }
}
