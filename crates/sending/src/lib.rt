// The office's side of a send: the sender's types, the commands that it writes and what each of its
// calls gives.
//
// No call has code here: specs/ says what each gives, for any sender and any lent buffers. The calls
// are in `sender`.
#![tactic(auto)]

ghost use Rattle.std.specs.Prelude.{◌≡◌};
ghost use Rattle.sending.specs.Transfers.{fresh_sender};
ghost use Rattle.sending.specs.Examples.{AllRun, examples};
ghost use Rattle.sending.specs.Claims.{LongIdAsWritten};
ghost use Rattle.sending.specs.Cuts.{SenderCutsAlike};
ghost use Rattle.sending.specs.Every.{EverySender};
ghost use Rattle.sending.specs.Machine.{ours};
ghost use Rattle.sending.specs.Arrives.{Arrives};
ghost use Rattle.sending.specs.WrongSenders.{SenderTeeth};
ghost use Rattle.sending.specs.WrongArrivals.{WrongSendersFall};

use command::Place;
use decimal::Number;
use frames::{Framing, Report};
use protocol::Id;

// ---- The sender: an array of files by value.
// A session: nothing written, send written, allowed by an OK, finish written, or stopped by a status.
#[derive(Clone, Copy)]
pub enum Stage {
    Fresh,
    Waiting,
    Open,
    Finished,
    Stopped,
}

// A file: none, its file command written, its last piece written, closed by an OK that agrees, or stopped
// by a status.
#[derive(Clone, Copy)]
pub enum FileStage {
    Free,
    Sending,
    Sent,
    Closed,
    Stopped,
}

// A file of the session. Its contents are counted, and its name is not kept. The stage is last, as the state
// is in protocol's FileRecord.
#[derive(Clone, Copy)]
pub struct SentFile {
    pub id: Id,
    pub sent: u64,
    pub stage: FileStage,
}

// A session and its files, in the order in which they were begun. "One file at a time": the last one is
// the current one. A library has fixed memory, so the files are an array with how many were begun.
#[derive(Clone, Copy)]
pub struct Transfer {
    pub stage: Stage,
    pub id: Id,
    pub files: [SentFile; Transfer::FILES],
    pub count: usize,
}

// What the office keeps between calls, beside the carry.
#[derive(Clone, Copy)]
pub struct Sender {
    pub framing: Framing,
    pub transfer: Transfer,
}

// ---- What a call answers.
// What a call that writes answers: the sender, and the length of the frame at the buffer's start, or a
// refusal. It is told by its number, as in the news: the contracts of the calls (`unwritten`, `wrote_by`) have
// it so, and the writer's refusals are among them.
#[derive(Clone, Copy)]
pub struct Wrote {
    pub sender: Sender,
    pub writing: Result<usize, u8>,
}

// What a hear tells. A file is named by its place, a status by where it stands in the scratch.
#[derive(Clone, Copy)]
pub enum News {
    Nothing,
    // A refusal, by its number.
    Refused(u8),
    // A command that is no status of this session, or for no file of it.
    Ignored,
    // A status that is fine and changes nothing that may be written.
    Noted,
    // The OK that lets the sender write on.
    Allowed,
    // A file's OK with another size than was sent.
    Differs(usize, Number),
    FileStopped(usize, Place),
    SessionStopped(Place),
}

// What hear answers: the sender, how many bytes of the piece it consumed, where the reported text stands,
// and what is told.
#[derive(Clone, Copy)]
pub struct Listened {
    pub sender: Sender,
    pub consumed: usize,
    pub report: Report,
    pub news: News,
}

// What a status makes of a session, and what is told.
#[derive(Clone, Copy)]
pub struct Heeded {
    pub transfer: Transfer,
    pub news: News,
}

// What the word of a status says: OK, that work goes on, or anything else.
#[derive(Clone, Copy)]
pub enum Word {
    Ok,
    Going,
    Other,
}

// ---- Free room, and the fresh sender.
impl SentFile {
    pub const FREE: SentFile = SentFile {
        id: Id::NONE,
        sent: 0,
        stage: FileStage::Free,
    };
}

impl Transfer {
    // "a 33rd file"
    pub const FILES: usize = 32;

    pub const NONE: Transfer = Transfer {
        stage: Stage::Fresh,
        id: Id::NONE,
        files: [SentFile::FREE; Transfer::FILES],
        count: 0,
    };
}

impl Sender {
    // Nothing is written and nothing heard. What holds at each call of every list of calls from here, that
    // cuts do not matter, that what is sent to a fresh receiver arrives whole, wrong senders of which these
    // are false, what a long file id gets, and the examples stand here too, so that nobody can drop a
    // theorem unseen.
    pub fn fresh() -> Sender
        ensures { (result ≡ fresh_sender) × EverySender ours × SenderCutsAlike ours × Arrives ours × SenderTeeth × WrongSendersFall
            × LongIdAsWritten × AllRun examples }
    {
        Sender {
            framing: Framing::Plain,
            transfer: Transfer::NONE,
        }
    }
}
