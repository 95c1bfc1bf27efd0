// What the console supplies in a receive session: a file of the listing, why a path is not listed, the
// home path, and the parts of the file that is asked for. A call is one on the session that it concerns,
// copied out of its table: what becomes of it, and the frame that is written.
//
// No public function has a `requires`: any session, any place and any slices are answered.
#![tactic(auto)]

mod commands;
pub mod turns;
mod writers;

ghost use Rattle.std.specs.Prelude.{◌≡◌, ℕ, ◌≤◌, List, length};
ghost use Rattle.octets.specs.Outcome.{outcome};
ghost use Rattle.command.specs.Slots.{nowhere};
ghost use Rattle.command.specs.Write.{answered};
ghost use Rattle.command.specs.Framed.{frame_room};
ghost use Rattle.protocol.specs.Supplies.{is_over, framed_for, is_held_back, change_for};
ghost use Rattle.sessions.specs.Leaving.{next_by};
ghost use Rattle.supplying.specs.Supplied.{given_in, held_answer, unsupplied, settled_by, taken_in, supplied_in};

use command::{Place, Refusal};
use command_writer::framed::FRAME_ROOM;
use protocol::refusals::{OUT_OF_TURN, OVER_LIMIT, SHORT_BUFFER};
use protocol::{
    Change, Due, Edit, Entry, Failure, FileRecord, News, Session, SessionState, Status, Told,
};
use reply::is_held;
use sessions::next::step;

// What is supplied; its strings stand in two slices, the text and the contents. The text of a home path
// is the session's id, and its contents are the path; the contents of a part are its bytes.
#[derive(Clone, Copy)]
pub enum Supplying {
    // The ids of an entry stand in the text, its name, its own id and a link's target in the contents.
    List(Entry),
    // The ids of the session and of the path, in the text, and why the path is not listed.
    ListFailed(Place, Place, Failure),
    Home,
    // The last one or not.
    Part(bool),
}

// What is supplied, with its two slices.
#[derive(Clone, Copy)]
pub struct Given<'a> {
    pub supplying: Supplying,
    pub text: &'a [u8],
    pub contents: &'a [u8],
}

// What a call leaves: the session to put back, what is owed, what is told, and how many bytes of the
// buffer were written. `Next` of `sessions` has a place and a reply still to be stored instead: one struct
// for both would carry what either has no use for, and be no plainer.
#[derive(Clone, Copy)]
pub struct Left {
    pub session: Session,
    pub owed: Option<(usize, Due)>,
    pub told: Told,
    pub written: usize,
}

// Supplies something in the session that was found in turn. 9 comes first, then 17, 18, and the writer's
// refusals; a refused call changes nothing.
pub fn supply_at(
    given: Given<'_>,
    found: Option<usize>,
    session: Session,
    owed: Option<(usize, Due)>,
    out: &mut [u8],
) -> Left
    ensures { outcome result out.new ≡ supplied_in (given_in given.entry) found session owed out.old }
{
    if out.len() < FRAME_ROOM {
        return unsupplied(session, owed, SHORT_BUFFER);
    }
    if given.is_over() {
        return unsupplied(session, owed, OVER_LIMIT);
    }
    let Some(i) = found else {
        return unsupplied(session, owed, OUT_OF_TURN);
    };
    take(given, i, session, owed, out)
}

// Nothing is changed.
fn unsupplied(session: Session, owed: Option<(usize, Due)>, number: u8) -> Left
    ensures { result ≡ unsupplied session owed number }
{
    Left {
        session,
        owed,
        told: Told::Refused(number),
        written: 0,
    }
}

// In turn: it is written, or held back.
fn take(
    given: Given<'_>,
    i: usize,
    session: Session,
    owed: Option<(usize, Due)>,
    out: &mut [u8],
) -> Left
    requires { frame_room ≤ length out.old }
    ensures { outcome result out.new ≡ taken_in (given_in given.entry) i session owed out.old }
{
    let written = if given.is_held_back(&session) {
        given.write_nowhere(&session)
    } else {
        given.write(&session, out)
    };
    settle(i, session, owed, given.change(), written)
}

impl Given<'_> {
    // "A part over 4,096 bytes gets 17"
    fn is_over(&self) -> bool
        ensures { result ≡ is_over (given_in self.now) }
    {
        matches!(self.supplying, Supplying::Part(_)) && self.contents.len() > FileRecord::PART_LIMIT
    }

    // "Quiet holds back only status replies", and every failure's as any other's.
    fn is_held_back(&self, session: &Session) -> bool
        ensures { result ≡ is_held_back session.now (given_in self.now) }
    {
        match self.supplying {
            Supplying::ListFailed(_, _, _) => is_held(Status::Eio, session.quiet),
            Supplying::Home => is_held(Status::Ok, session.quiet),
            _ => false,
        }
    }

    // The writer's refusal of what is held back; where there is none, no byte counts as written.
    fn write_nowhere(&self, session: &Session) -> Result<usize, Refusal>
        ensures { (out : List ℕ) → frame_room ≤ length out
            → answered result ≡ held_answer (framed_for session.now (given_in self.now) out).answer }
    {
        let mut out = [0; FRAME_ROOM];
        self.write(session, &mut out)?;
        Ok(0)
    }

    // Writes it, in turn or not.
    fn write(&self, session: &Session, out: &mut [u8]) -> Result<usize, Refusal>
        ensures { outcome (answered result) out.new ≡ framed_for session.now (given_in self.now) out.old }
    {
        match self.supplying {
            Supplying::List(entry) => writers::write_entry(entry, self.text, self.contents, out),
            Supplying::ListFailed(id, path_id, failure) => {
                writers::write_error(self.text, id, path_id, failure, out)
            }
            Supplying::Home => writers::write_home(self.text, self.contents, out),
            Supplying::Part(last) => writers::write_part(session, last, self.contents, out),
        }
    }

    // What becomes of the session that is supplied. After the home path, written or held back, it serves;
    // a request is "owed until the console has supplied its last part".
    fn change(&self) -> Change
        ensures { result ≡ change_for (given_in self.now) }
    {
        let (edit, news) = match self.supplying {
            Supplying::Home => (
                Edit::Turned(SessionState::Serving),
                News::Tells(Told::Nothing),
            ),
            Supplying::Part(true) => (Edit::Same, News::Clears(Told::Nothing)),
            _ => (Edit::Same, News::Tells(Told::Nothing)),
        };
        Change {
            edit,
            file: FileRecord::FREE,
            news,
            reply: None,
        }
    }
}

// The session's step, unless the writer refuses.
fn settle(
    i: usize,
    session: Session,
    owed: Option<(usize, Due)>,
    change: Change,
    written: Result<usize, Refusal>,
) -> Left
    ensures { result ≡ settled_by session owed (next_by session i owed nowhere change) (answered written) }
{
    match written {
        Ok(n) => {
            let next = step(session, i, owed, Place::NOWHERE, change);
            Left {
                session: next.session,
                owed: next.owed,
                told: next.told,
                written: n,
            }
        }
        Err(refusal) => unsupplied(session, owed, refusal.number()),
    }
}
