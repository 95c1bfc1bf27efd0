// The table of four sessions: which one a command or a call of the console concerns, its step, and
// what the table then takes. A step gives the one session that it leaves, with its place, what is owed,
// what to tell the console and the reply that is due; taken by the table, that equals what `protocol`
// defines, for any table.
//
// Not here: what the step makes of the session (`session_rule`), reading a command's text, and the
// bytes of a reply.
#![tactic(auto)]

pub mod absent;
mod changes;
pub mod find;
pub mod next;
mod numbers;
pub mod places;

ghost use Rattle.std.specs.Prelude.{◌≡◌};
ghost use Rattle.protocol.specs.Calls.{is_owed};
ghost use Rattle.protocol.specs.Sessions.{request_in, obey_of, settle_done, settle_failed, settle_unlisted, decided_of};
ghost use Rattle.protocol.specs.Rule.{obeyed_by};
ghost use Rattle.sessions.specs.Leaving.{taken, next_by};

use absent::absent;
use command::{Command, Place};
use find::find_session;
use next::{Next, step, tell};
use places::session_at;
use protocol::refusals::{NO_SESSION, NOTHING_OWED, OUT_OF_TURN};
use protocol::{Decision, Due, Failure, Session, Table, Told};
use session_rule::{answers, commands, decisions};

// What a command does, while nothing is owed; its ids stand in the text, its name in the scratch.
#[tactic(auto, unfolding(protocol::specs::Sessions::obey_of))]
pub fn obey(table: Table, command: Command, text: &[u8], scratch: &[u8]) -> Next
    ensures { taken table result ≡ obey_of table command text.now scratch.now }
{
    let id = octets::part(text, command.id.start, command.id.len);
    match find_session(table, id) {
        None => absent(table, command.action, command.quiet, command.size, id),
        Some(i) => present(session_at(table, i), i, table.owed, command, text, scratch),
    }
}

// A command of the session at place i, which is present.
pub fn present(
    session: Session,
    i: usize,
    owed: Option<(usize, Due)>,
    command: Command,
    text: &[u8],
    scratch: &[u8],
) -> Next
    ensures { let q = request_in command text.now scratch.now in
        result ≡ next_by session i owed command.payload (obeyed_by session q) }
{
    let file = command.file_id;
    let name = command.name;
    let change = commands::obey(
        session,
        command,
        octets::part(text, file.start, file.len),
        octets::part(scratch, name.start, name.len),
    );
    step(session, i, owed, command.payload, change)
}

// The console has done what it was asked. `done`, `failed` and `unlisted` stay apart: one function over the
// answer as a closure needs a ghost function that each of the three picks, which is no plainer.
#[tactic(auto, unfolding(protocol::specs::Sessions::settle_done))]
pub fn done(table: Table) -> Next
    ensures { taken table result ≡ settle_done table }
{
    let Some((i, due)) = table.owed else {
        return tell(table, Told::Refused(NOTHING_OWED));
    };
    let session = session_at(table, i);
    let change = answers::done(session, due);
    step(session, i, table.owed, Place::NOWHERE, change)
}

// The console has failed to do what it was asked.
#[tactic(auto, unfolding(protocol::specs::Sessions::settle_failed))]
pub fn failed(table: Table, failure: Failure) -> Next
    ensures { taken table result ≡ settle_failed table failure }
{
    let Some((i, due)) = table.owed else {
        return tell(table, Told::Refused(NOTHING_OWED));
    };
    let session = session_at(table, i);
    let change = answers::failed(failure, session, due);
    step(session, i, table.owed, Place::NOWHERE, change)
}

// The console calls the file that it was asked for "a directory or not listed"; 18 where nothing is owed.
#[tactic(auto, unfolding(protocol::specs::Sessions::settle_unlisted))]
pub fn unlisted(table: Table) -> Next
    ensures { taken table result ≡ settle_unlisted table }
{
    let Some((i, due)) = table.owed else {
        return tell(table, Told::Refused(OUT_OF_TURN));
    };
    let session = session_at(table, i);
    let change = answers::unlisted(session, due);
    step(session, i, table.owed, Place::NOWHERE, change)
}

// The console lets an asked session be open, turns it away, or drops one, asked or open.
#[tactic(auto, unfolding(protocol::specs::Sessions::decided_of))]
pub fn decide(table: Table, decision: Decision, id: &[u8]) -> Next
    ensures { taken table result ≡ decided_of table decision id.now }
{
    let Some(i) = find_session(table, id) else {
        return tell(table, Told::Refused(NO_SESSION));
    };
    let session = session_at(table, i);
    let change = decisions::decide(decision, session);
    step(session, i, table.owed, Place::NOWHERE, change)
}

// Whether the console owes an answer.
pub fn is_owed(owed: Option<(usize, Due)>) -> bool
    ensures { result ≡ is_owed owed }
{
    owed.is_some()
}
