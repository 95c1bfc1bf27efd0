// The command finish.
ghost use Rattle.std.specs.Prelude.{◌≡◌};
ghost use Rattle.protocol.specs.Files.{finish_of};

use crate::changes::{asks, drops};
use crate::replies::session_reply;
use protocol::{Change, Due, Session, Status, Told};

// A file still started drops the session; else its commit is asked.
#[tactic(auto, unfolding(protocol::specs::Files::finish_of))]
pub(crate) fn finish(session: Session) -> Change
    ensures { result ≡ finish_of session }
{
    if session.started == 0 {
        return asks(Due::Commit);
    }
    drops(
        Told::Discarded,
        Some(session_reply(Status::Einval, session)),
    )
}
