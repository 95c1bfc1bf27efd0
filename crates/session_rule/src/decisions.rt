// The console's decisions on a session.
ghost use Rattle.std.specs.Prelude.{◌≡◌};
ghost use Rattle.protocol.specs.Rule.{is_asked, opened_from, decided_by};

use crate::changes::{drops, tells, turns};
use crate::replies::session_reply;
use protocol::refusals::NO_SESSION;
use protocol::{Change, Decision, Session, SessionState, Status, Told};

// Allow opens an asked session, "reply OK"; deny drops it, "reply EPERM"; any session present may be
// dropped, "with no reply".
#[tactic(auto, unfolding(protocol::specs::Rule::decided_by))]
pub fn decide(decision: Decision, session: Session) -> Change
    ensures { result ≡ decided_by decision session }
{
    match decision {
        Decision::Drop => drops(Told::Nothing, None),
        _ if !is_asked(session.state) => tells(Told::Refused(NO_SESSION), None),
        Decision::Allow => turns(
            opened_from(session.state),
            Some(session_reply(Status::Ok, session)),
        ),
        Decision::Deny => drops(Told::Nothing, Some(session_reply(Status::Eperm, session))),
    }
}

// The user is asked.
fn is_asked(state: SessionState) -> bool
    ensures { result ≡ is_asked state }
{
    matches!(state, SessionState::Asked | SessionState::Waiting)
}

// An open session: one that receives lists first.
fn opened_from(state: SessionState) -> SessionState
    ensures { result ≡ opened_from state }
{
    match state {
        SessionState::Absent | SessionState::Asked | SessionState::Open => SessionState::Open,
        _ => SessionState::Listing,
    }
}
