// The protocol's types and definitions: the receiver, what it tells the console, and the session
// rule, with the history of calls and the theorem about it.
//
// No feed or console call has code here: specs/ says what each gives, for any receiver and any lent
// buffers, and proofs/ shows what every list of calls from a fresh receiver keeps.
#![tactic(auto)]

mod actions;
mod id;
pub mod refusals;

ghost use Rattle.std.specs.Prelude.{◌≡◌};
ghost use Rattle.protocol.specs.Claim.{EveryHistory};
ghost use Rattle.protocol.specs.Cuts.{CutsAlike};
ghost use Rattle.protocol.specs.Isolation.{Isolated};
ghost use Rattle.protocol.specs.IsolationExamples.{SeesAlike};
ghost use Rattle.protocol.specs.LeakyMachines.{Leaks};
ghost use Rattle.protocol.specs.Machine.{ours};
ghost use Rattle.protocol.specs.Replies.{failure_status};
ghost use Rattle.protocol.specs.Counts.{EveryCount};
ghost use Rattle.protocol.specs.Sound.{EverySound};
ghost use Rattle.protocol.specs.Starred.{AllHold, starred};
ghost use Rattle.protocol.specs.Table.{fresh_receiver};
ghost use Rattle.protocol.specs.Serving.{ServesWhole};
ghost use Rattle.protocol.specs.WrongMachines.{Teeth};
ghost use Rattle.protocol.specs.WrongSupplies.{SupplyTeeth};

use command::{Command, FileType, Place};
use decimal::Number;
use frames::{Framing, Report};
pub use id::Id;

// ---- The receiver: nested arrays by value.
// Free is a state, and the array holds no Options: theorem `SoundSession` (clause `file_for`) says that a
// record of it is blank, which would say nothing of a None.
#[derive(Clone, Copy)]
pub enum FileState {
    Free,
    Opening,
    Started,
    Done,
    Failed,
    // A path that a receive session names, or the file that it asks for.
    Named,
}

// A file record: a length of 0 was not declared. It holds no file type: what was opened is told from the
// command read. The state is last, so that free records are written as one run of zeros: with room between
// it and the id a compiler writes them one by one, and takes each session apart.
#[derive(Clone, Copy)]
pub struct FileRecord {
    pub id: Id,
    pub count: u64,
    // 0 and no Option: theorem `ClosedWhole.declared` speaks of declared lengths from 1 on.
    pub declared: u64,
    pub state: FileState,
}

// A send session is asked and then open. A receive session names its paths, waits for the user, and is
// then open: it lists, and after the home path it serves.
// Absent is a state, and the table holds no Options: document 01's action table has a row for it.
#[derive(Clone, Copy)]
pub enum SessionState {
    Absent,
    Asked,
    Open,
    Naming,
    Waiting,
    Listing,
    Serving,
}

// A session, with how many paths a receive session asks for, and two numbers that are kept of its files:
// how many are started, and the sum of the counts of those that are done.
#[derive(Clone, Copy)]
pub struct Session {
    pub state: SessionState,
    pub quiet: u64,
    pub id: Id,
    pub wanted: u64,
    pub started: u64,
    pub done_bytes: u64,
    pub files: [FileRecord; Session::FILES],
}

// What the console was asked to do for a session and has not answered, with the place of the file in
// the session and the part's length. The file of a request is the session's first.
#[derive(Clone, Copy)]
pub enum Due {
    OpenFile(usize),
    OpenDirectory(usize),
    Write(usize, usize),
    WriteLast(usize, usize),
    Commit,
    Request,
}

// What the console owes an answer to is the place of a session, with what is due for it.
#[derive(Clone, Copy)]
pub struct Table {
    pub sessions: [Session; Table::SESSIONS],
    pub owed: Option<(usize, Due)>,
}

// What a command does, by the action table.
#[derive(Clone, Copy)]
pub enum Kind {
    Ignore,
    Ask,
    Receive,
    Invalid,
    Cancel,
    Withdraw,
    File,
    Data,
    EndData,
    Finish,
    Path,
    Request,
}

// What the console keeps between calls, beside the carry.
#[derive(Clone, Copy)]
pub struct Receiver {
    pub framing: Framing,
    pub table: Table,
}

// ---- What a call tells the console.
// What the console is asked to do: to open the command's file, to write a part of it or its last
// part (the part's place in the scratch), to commit the session, or to supply the command's file.
#[derive(Clone, Copy)]
pub enum Ask {
    Open,
    Write(Place),
    WriteLast(Place),
    Commit,
    Request,
}

// The status words of replies.
#[derive(Clone, Copy)]
pub enum Status {
    Ok,
    Started,
    Progress,
    Canceled,
    Eperm,
    Eio,
    Enoent,
    Enospc,
    Ebusy,
    Enotsup,
    Einval,
    Eexist,
    Emfile,
    Efbig,
}

// Why the console failed an ask.
#[derive(Clone, Copy)]
pub enum Failure {
    Eperm,
    Eio,
    Enoent,
    Enospc,
}

// "It answers done, or failed with EPERM, EIO, ENOENT, ENOSPC"
impl From<Failure> for Status {
    ghost from_gives = { λ failure status. status ≡ failure_status failure };

    fn from(failure: Failure) -> Status {
        match failure {
            Failure::Eperm => Status::Eperm,
            Failure::Eio => Status::Eio,
            Failure::Enoent => Status::Enoent,
            Failure::Enospc => Status::Enospc,
        }
    }
}

// What the console decides of a session.
#[derive(Clone, Copy)]
pub enum Decision {
    Allow,
    Deny,
    Drop,
}

// What a call tells.
#[derive(Clone, Copy)]
pub enum Told {
    Nothing,
    // A refusal, by its number in document 01 (`refusals`). No enum: docs/CONSOLE.md tells refusals apart by
    // number, and definitions `refusal_told` and `Saying` read it.
    Refused(u8),
    // A command was read, and the rule ignores it.
    Ignored,
    // A text of drag and drop was reported. It is no command, and is read by other calls.
    DragDrop,
    // A new session waits for the user.
    Asked,
    // A new receive session names its paths; a path of it; and its last one, with which it waits for the
    // user.
    Naming,
    Path,
    LastPath,
    // An answer is owed to this ask.
    Ask(Ask),
    // The call's only outcome is this status, also where quiet holds the reply back.
    Status(Status),
    // A session was dropped: one only asked, an open one, or one committed.
    Withdrawn,
    Discarded,
    Committed,
}

// A reply that is due. A size of 0 is left out, as is an empty file id: so docs/PROTOCOL.md (Replies), and
// with Options a Some of these would be left out all the same.
#[derive(Clone, Copy)]
pub struct Reply {
    pub status: Status,
    pub quiet: u64,
    pub id: Id,
    pub file_id: Id,
    pub size: u64,
}

// ---- What a step makes of one session.
// The session is as it was, is in another state, has a file record put at a place, waits for the user
// with no file left, or is dropped.
#[derive(Clone, Copy)]
pub enum Edit {
    Same,
    Turned(SessionState),
    Filed(usize),
    Waits,
    Dropped,
}

// What the console hears of a step: something told while what is owed stays, something told while what
// the session owed is cleared, or an ask, which is owed from then on.
#[derive(Clone, Copy)]
pub enum News {
    Tells(Told),
    Clears(Told),
    Asks(Due),
}

// What becomes of a session at a step, by an edit with the file record that it puts, what the console
// hears, and the reply. It names no place in the table.
#[derive(Clone, Copy)]
pub struct Change {
    pub edit: Edit,
    pub file: FileRecord,
    pub news: News,
    pub reply: Option<Reply>,
}

// What a step gives: the table afterwards, what is told, and the reply.
#[derive(Clone, Copy)]
pub struct Stepped {
    pub table: Table,
    pub told: Told,
    pub reply: Option<Reply>,
}

// What feed answers: the receiver, how many bytes of the piece it consumed, where the reported text
// stands, what is told, and the reply's length. What is told of a command is told of `command`, whose
// places are in that text and in the scratch; it is `Command::NONE` where none was read.
#[derive(Clone, Copy)]
pub struct Fed {
    pub receiver: Receiver,
    pub consumed: usize,
    pub report: Report,
    pub told: Told,
    // No Option: README's loop and docs/CONSOLE.md read `fed.command.id` as it stands.
    pub command: Command,
    pub reply_len: usize,
}

// A file of a listing: its type, times and sizes; the ids of its session, of the path that it is listed
// for and of its parent, at places of one slice; its name, its own id and the target of a link, at places
// of another.
#[derive(Clone, Copy)]
pub struct Entry {
    pub file_type: FileType,
    pub modified: Number,
    pub permissions: Number,
    pub size: Number,
    pub id: Place,
    pub path_id: Place,
    pub parent: Place,
    pub name: Place,
    pub own_id: Place,
    pub target: Place,
}

// What a console call answers: the receiver, what is told, and the length of the reply, or of what it
// wrote. What done and failed tell, they tell of the ask that they answer.
#[derive(Clone, Copy)]
pub struct Answered {
    pub receiver: Receiver,
    pub told: Told,
    pub reply_len: usize,
}

// ---- Free room, the fresh receiver and the action table.
impl FileRecord {
    // "Over 4,096 decoded bytes" a part fails its file.
    pub const PART_LIMIT: usize = 4096;

    pub const FREE: FileRecord = FileRecord {
        id: Id::NONE,
        count: 0,
        declared: 0,
        state: FileState::Free,
    };
}

impl Session {
    // "thirty-two file records"
    pub const FILES: usize = 32;

    pub const ABSENT: Session = Session {
        state: SessionState::Absent,
        quiet: 0,
        id: Id::NONE,
        wanted: 0,
        started: 0,
        done_bytes: 0,
        files: [FileRecord::FREE; Session::FILES],
    };
}

impl Table {
    // "four sessions"
    pub const SESSIONS: usize = 4;

    pub const EMPTY: Table = Table {
        sessions: [Session::ABSENT; Table::SESSIONS],
        owed: None,
    };
}

impl Reply {
    // "No reply is longer than 124 bytes": what a reply buffer has at least.
    pub const ROOM: usize = 124;
}

impl Receiver {
    // "A fresh receiver has no session, no file and nothing owed." What every list of calls from here
    // keeps (demand 3), that cuts do not matter, what holds of every table, a receive session computed
    // whole, that no session hangs on another, and document 01's starred cases stand here too, so that
    // nobody can drop a theorem unseen.
    pub fn fresh() -> Receiver
        ensures { (result ≡ fresh_receiver) × EveryHistory ours × CutsAlike ours × EverySound ours × EveryCount ours × Teeth
            × ServesWhole ours × SupplyTeeth × Isolated ours × SeesAlike ours × Leaks × AllHold starred }
    {
        Receiver {
            framing: Framing::Plain,
            table: Table::EMPTY,
        }
    }
}
