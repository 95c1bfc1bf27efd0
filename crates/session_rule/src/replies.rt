// Which reply is due.
ghost use Rattle.std.specs.Prelude.{◌≡◌};
ghost use Rattle.protocol.specs.Replies.{session_reply, file_reply};

use protocol::{FileRecord, Id, Reply, Session, Status};

// A reply about a session.
pub fn session_reply(status: Status, session: Session) -> Reply
    ensures { result ≡ session_reply status session }
{
    Reply {
        status,
        quiet: session.quiet,
        id: session.id,
        file_id: Id::NONE,
        size: 0,
    }
}

// A reply about a file of a session, with a size. From session_reply by struct update it would be no
// plainer, and would copy the session once more.
pub(crate) fn file_reply(status: Status, session: Session, file: FileRecord, size: u64) -> Reply
    ensures { result ≡ file_reply status session file size }
{
    Reply {
        status,
        quiet: session.quiet,
        id: session.id,
        file_id: file.id,
        size,
    }
}
