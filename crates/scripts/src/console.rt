// The console's state between the operations of a script, and each operation.
use crate::calls::Calls;
use crate::script::claimed_length;
use crate::{line, operands, supplies};
use command::{Command, Place};
use command_writer::framed::FRAME_ROOM;
use frames::{Framing, Report};
use protocol::{Answered, Fed, Receiver, Reply, Told};
use script_parts::{Player, byte, rest, two_bytes};
use sessions::find::find_session;
use sessions::places::session_at;
use std::marker::PhantomData;
use streams::Run;

// How the run stands, the receiver, the buffers with how much of each is lent, the latest feed, and which
// calls are made.
#[derive(Drop)]
pub struct Console<'a, C> {
    pub run: Run,
    pub receiver: Receiver,
    pub buffers: Buffers,
    pub lent: Lent,
    pub latest: Latest<'a>,
    pub calls: PhantomData<C>,
}

#[derive(Clone, Copy)]
pub struct Buffers {
    pub carry: [u8; Buffers::CARRY],
    pub scratch: [u8; Buffers::SCRATCH],
    pub reply: [u8; Buffers::REPLY],
    pub out: [u8; Buffers::OUT],
}

// How many bytes of each buffer are lent at most.
#[derive(Clone, Copy)]
pub struct Lent {
    pub carry: usize,
    pub scratch: usize,
    pub reply: usize,
    pub out: usize,
}

// A feed: its piece, and its report.
#[derive(Clone, Copy)]
pub struct Latest<'a> {
    pub piece: &'a [u8],
    pub report: Report,
}

// What is printed of a call: the bytes consumed, what is told, the place of the command's name, and how
// many bytes were written. Only a feed consumes and reads a command.
#[derive(Clone, Copy)]
pub struct Answer {
    pub consumed: usize,
    pub told: Told,
    pub name: Place,
    pub written: usize,
}

impl Buffers {
    // Each buffer is longer than a call needs.
    const CARRY: usize = Framing::TEXT_LIMIT + 64;

    const SCRATCH: usize = Command::SCRATCH_ROOM + 64;

    const REPLY: usize = Reply::ROOM + 68;

    const OUT: usize = FRAME_ROOM + 60;
}

impl<'a, C: Calls> Player<'a> for Console<'a, C> {
    fn claimed_length(operation: &[u8]) -> Option<usize> {
        claimed_length(operation)
    }

    fn perform(&mut self, operation: &'a [u8]) -> Option<Run> {
        match byte(operation, 0) {
            b'f' => self.feed(rest(operation, 3)),
            b't' => self.text(),
            b'y' => self.numbers(operands::id(operation)),
            b'n' => *self = Console::fresh(self.run),
            // From now on only the first so many bytes of a buffer are lent.
            b'c' => self.lent.carry = two_bytes(operation, 1),
            b's' => self.lent.scratch = two_bytes(operation, 1),
            b'r' => self.lent.reply = two_bytes(operation, 1),
            b'o' => self.lent.out = two_bytes(operation, 1),
            b'l' | b'g' | b'h' | b'p' | b'z' => self.supply(operation),
            _ => self.call(operation),
        }
        Some(self.run)
    }
}

impl<'a, C: Calls> Console<'a, C> {
    // A fresh receiver, every buffer as at first and lent whole, no feed made yet.
    pub(crate) fn fresh(run: Run) -> Console<'a, C> {
        Console {
            run,
            receiver: Receiver::fresh(),
            buffers: Buffers {
                carry: [0xA5; Buffers::CARRY],
                scratch: [0xA5; Buffers::SCRATCH],
                reply: [0xA5; Buffers::REPLY],
                out: [0xA5; Buffers::OUT],
            },
            lent: Lent {
                carry: Buffers::CARRY,
                scratch: Buffers::SCRATCH,
                reply: Buffers::REPLY,
                out: Buffers::OUT,
            },
            latest: Latest {
                piece: b"",
                report: Report::Nothing,
            },
            calls: PhantomData,
        }
    }

    // ---- Calls.
    // One feed of the piece, that is lent the first bytes of each buffer.
    fn feed(&mut self, piece: &'a [u8]) {
        let carry = self.lent.carry.min(Buffers::CARRY);
        let scratch = self.lent.scratch.min(Buffers::SCRATCH);
        let reply = self.lent.reply.min(Buffers::REPLY);
        // Fields lent at once are those of a variable: the check does not cover them behind a reference.
        let mut buffers = self.buffers;
        let fed = C::feed(
            self.receiver,
            piece,
            &mut buffers.carry[..carry],
            &mut buffers.scratch[..scratch],
            &mut buffers.reply[..reply],
        );
        self.buffers = buffers;
        self.receiver = fed.receiver;
        self.latest = Latest {
            piece,
            report: fed.report,
        };
        self.run = line::replied(self.run, b'f', answer_to_feed(fed), &self.buffers);
    }

    // List, list_failed, home, part or last_part.
    fn supply(&mut self, operation: &[u8]) {
        let out = self.lent.out.min(Buffers::OUT);
        let answered = C::supply(
            self.receiver,
            supplies::supplying_of(operation),
            supplies::text_of(operation),
            supplies::contents_of(operation),
            &mut self.buffers.out[..out],
        );
        self.receiver = answered.receiver;
        let letter = byte(operation, 0);
        self.run = line::supplied(self.run, letter, answer_of(answered), &self.buffers);
    }

    // Allow, deny, drop, done, failed or unlisted.
    fn call(&mut self, operation: &[u8]) {
        let reply = self.lent.reply.min(Buffers::REPLY);
        let answered = C::answer(
            self.receiver,
            operands::call(operation),
            operands::id(operation),
            &mut self.buffers.reply[..reply],
        );
        self.receiver = answered.receiver;
        let letter = byte(operation, 0);
        self.run = line::replied(self.run, letter, answer_of(answered), &self.buffers);
    }

    // ---- What is printed without a call.
    // The text of the latest feed's report, given that feed's piece and the carry as lent now.
    fn text(&mut self) {
        let lent = &self.buffers.carry[..self.lent.carry.min(Buffers::CARRY)];
        self.run = line::text(
            self.run,
            frames::text(self.latest.piece, lent, self.latest.report),
        );
    }

    // The numbers kept in the session with this id.
    fn numbers(&mut self, id: &[u8]) {
        let table = self.receiver.table;
        self.run = match find_session(table, id) {
            None => line::no_numbers(self.run),
            Some(i) => {
                let session = session_at(table, i);
                line::numbers(
                    self.run,
                    session.started as usize,
                    session.done_bytes as usize,
                )
            }
        };
    }
}

fn answer_to_feed(fed: Fed) -> Answer {
    Answer {
        consumed: fed.consumed,
        told: fed.told,
        name: fed.command.name,
        written: fed.reply_len,
    }
}

// A call that is no feed consumes nothing and reads no command.
fn answer_of(answered: Answered) -> Answer {
    Answer {
        consumed: 0,
        told: answered.told,
        name: Place::NOWHERE,
        written: answered.reply_len,
    }
}
