// A call of the console on one session: which session it concerns, its step, and its reply.
ghost use Rattle.std.specs.Prelude.{◌≡◌};
ghost use Rattle.octets.specs.Outcome.{outcome};
ghost use Rattle.session_in_place.specs.Calls.{is_guarded, refusal_of, owner_of, due_of, concerned};
ghost use Rattle.session_in_place.specs.Calls.{change_by, next_at, next_for, answer_at};

use crate::Call;
use crate::steps::{Left, leave, stay};
use command::Place;
use protocol::refusals::{NO_SESSION, NOTHING_OWED, OUT_OF_TURN, SHORT_BUFFER};
use protocol::{Change, Decision, Due, Reply, Session, Table, Told};
use session_rule::{answers, decisions};
use sessions::find::find;
use sessions::next::{Next, step};

// The session that a call concerns: allow, deny and drop the one with the id, the others the one that
// owes.
#[tactic(auto, unfolding(crate::specs::Calls::concerned))]
pub fn concerned(
    call: Call,
    owed: Option<(usize, Due)>,
    sessions: &[Session],
    id: &[u8],
) -> Option<usize>
    ensures { result ≡ concerned call owed sessions.now id.now }
{
    match call {
        Call::Allow | Call::Deny | Call::Drop => find(sessions, id),
        Call::Done | Call::Failed(_) | Call::Unlisted => owner(owed),
    }
}

fn owner(owed: Option<(usize, Due)>) -> Option<usize>
    ensures { result ≡ owner_of owed }
{
    owed.map(|(i, _)| i)
}

// The call's step on the session that was copied out, its reply stored. 9 first, but of a drop, which
// is lent no buffer where it is called by value.
#[tactic(auto, unfolding(crate::specs::Calls::answer_at))]
pub fn answer_at(
    call: Call,
    found: Option<usize>,
    session: Session,
    owed: Option<(usize, Due)>,
    buffer: &mut [u8],
) -> Left
    ensures { outcome result buffer.new ≡ answer_at call found session owed buffer.old }
{
    if is_guarded(call) && buffer.len() < Reply::ROOM {
        return Left {
            session,
            owed,
            told: Told::Refused(SHORT_BUFFER),
            written: 0,
        };
    }
    leave(next_for(call, found, session, owed), buffer)
}

fn is_guarded(call: Call) -> bool
    ensures { result ≡ is_guarded call }
{
    !matches!(call, Call::Drop)
}

fn next_for(call: Call, found: Option<usize>, session: Session, owed: Option<(usize, Due)>) -> Next
    ensures { result ≡ next_for call found session owed }
{
    match found {
        None => stay(session, owed, Told::Refused(refusal(call)), None),
        Some(i) => next_at(call, i, session, owed),
    }
}

// What is owed may name a place outside the table, of a receiver that no calls made. The step is then
// one on free room, and the session that was copied out is put back as it was.
#[tactic(auto, unfolding(crate::specs::Calls::next_at))]
fn next_at(call: Call, i: usize, session: Session, owed: Option<(usize, Due)>) -> Next
    ensures { result ≡ next_at call i session owed }
{
    if i < Table::SESSIONS {
        return step(
            session,
            i,
            owed,
            Place::NOWHERE,
            change(call, session, owed),
        );
    }
    let aside = change(call, Session::ABSENT, owed);
    Next {
        place: 0,
        session,
        ..step(Session::ABSENT, i, owed, Place::NOWHERE, aside)
    }
}

// What the call makes of a session.
#[tactic(auto, unfolding(crate::specs::Calls::change_by))]
fn change(call: Call, session: Session, owed: Option<(usize, Due)>) -> Change
    ensures { result ≡ change_by call session owed }
{
    match call {
        Call::Allow => decisions::decide(Decision::Allow, session),
        Call::Deny => decisions::decide(Decision::Deny, session),
        Call::Drop => decisions::decide(Decision::Drop, session),
        Call::Done => answers::done(session, due(owed)),
        Call::Failed(failure) => answers::failed(failure, session, due(owed)),
        Call::Unlisted => answers::unlisted(session, due(owed)),
    }
}

// What is due; where nothing is, no call comes here.
fn due(owed: Option<(usize, Due)>) -> Due
    ensures { result ≡ due_of owed }
{
    match owed {
        Some((_, due)) => due,
        None => Due::Commit,
    }
}

// Why a call that concerns no session is refused: no session has the id, or nothing is owed, for which
// unlisted is out of turn.
fn refusal(call: Call) -> u8
    ensures { result ≡ refusal_of call }
{
    match call {
        Call::Allow | Call::Deny | Call::Drop => NO_SESSION,
        Call::Done | Call::Failed(_) => NOTHING_OWED,
        Call::Unlisted => OUT_OF_TURN,
    }
}
