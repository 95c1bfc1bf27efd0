// The office's state between the operations of a script, and each operation.
use crate::line;
use crate::script::{claimed_length, id_length};
use command::Command;
use command_writer::framed::FRAME_ROOM;
use frames::{Framing, Report};
use script_parts::{Player, byte, eight_bytes, rest, two_bytes};
use sending::{Sender, Wrote};
use streams::Run;

// How the run stands, the sender, the buffers with how much of each is lent, and the latest hear.
#[derive(Drop)]
pub struct Office<'a> {
    pub run: Run,
    pub sender: Sender,
    pub buffers: Buffers,
    pub rooms: Rooms,
    pub heard: Heard<'a>,
}

#[derive(Clone, Copy)]
pub struct Buffers {
    pub out: [u8; Buffers::OUT],
    pub carry: [u8; Buffers::CARRY],
    pub scratch: [u8; Buffers::SCRATCH],
}

// How many bytes of each buffer are lent at most.
#[derive(Clone, Copy)]
pub struct Rooms {
    pub out: usize,
    pub carry: usize,
    pub scratch: usize,
}

// A hear: its piece, and its report.
#[derive(Clone, Copy)]
pub struct Heard<'a> {
    pub piece: &'a [u8],
    pub report: Report,
}

impl Buffers {
    // Each buffer is longer than a call needs.
    const OUT: usize = FRAME_ROOM + 64;

    const CARRY: usize = Framing::TEXT_LIMIT + 64;

    const SCRATCH: usize = Command::SCRATCH_ROOM + 64;
}

impl<'a> Player<'a> for Office<'a> {
    fn claimed_length(operation: &[u8]) -> Option<usize> {
        claimed_length(operation)
    }

    fn perform(&mut self, operation: &'a [u8]) -> Option<Run> {
        match byte(operation, 0) {
            b'h' => self.hear(rest(operation, 3)),
            b't' => self.text(),
            b'n' => *self = Office::fresh(self.run),
            // From now on only the first so many bytes of a buffer are lent.
            b'b' => self.rooms.out = two_bytes(operation, 1),
            b'c' => self.rooms.carry = two_bytes(operation, 1),
            b'w' => self.rooms.scratch = two_bytes(operation, 1),
            _ => self.call(operation),
        }
        Some(self.run)
    }
}

impl<'a> Office<'a> {
    // A fresh sender, the buffers as at first, every one lent whole, no hear made yet.
    pub(crate) fn fresh(run: Run) -> Office<'a> {
        Office {
            run,
            sender: Sender::fresh(),
            buffers: Buffers {
                out: [0xA5; Buffers::OUT],
                carry: [0xA5; Buffers::CARRY],
                scratch: [0xA5; Buffers::SCRATCH],
            },
            rooms: Rooms {
                out: Buffers::OUT,
                carry: Buffers::CARRY,
                scratch: Buffers::SCRATCH,
            },
            heard: Heard {
                piece: b"",
                report: Report::Nothing,
            },
        }
    }

    // One hear of the piece, once, that is lent the first bytes of each buffer.
    fn hear(&mut self, piece: &'a [u8]) {
        let carry = self.rooms.carry.min(Buffers::CARRY);
        let scratch = self.rooms.scratch.min(Buffers::SCRATCH);
        // Two fields lent at once are those of a variable: the check does not cover them behind a reference.
        let mut buffers = self.buffers;
        let listened = sender::hear(
            self.sender,
            piece,
            &mut buffers.carry[..carry],
            &mut buffers.scratch[..scratch],
        );
        self.buffers = buffers;
        self.sender = listened.sender;
        self.heard = Heard {
            piece,
            report: listened.report,
        };
        let told = line::heard(self.run, listened.consumed, listened.news);
        self.end(told);
    }

    // The text of the latest hear's report, given that hear's piece and so many bytes of the carry as it is now.
    fn text(&mut self) {
        let lent = &self.buffers.carry[..self.rooms.carry.min(Buffers::CARRY)];
        self.run = line::text(
            self.run,
            frames::text(self.heard.piece, lent, self.heard.report),
        );
    }

    // A call that writes.
    fn call(&mut self, operation: &[u8]) {
        let out = self.rooms.out.min(Buffers::OUT);
        let wrote = call(self.sender, operation, &mut self.buffers.out[..out]);
        self.sender = wrote.sender;
        let told = line::wrote(
            self.run,
            byte(operation, 0),
            wrote.writing,
            &self.buffers.out,
        );
        self.end(told);
    }

    // What ends the line of a call.
    fn end(&mut self, told: Run) {
        self.run = line::end(told, self.sender.transfer, &self.buffers);
    }
}

// ---- Calls that write.
fn call(sender: Sender, operation: &[u8], out: &mut [u8]) -> Wrote {
    match byte(operation, 0) {
        b's' => sender::send(sender, rest(operation, 2), out),
        b'f' => file(sender, operation, out),
        b'p' => sender::piece(sender, rest(operation, 3), false, out),
        b'l' => sender::piece(sender, rest(operation, 3), true, out),
        _ => sender::finish(sender, out),
    }
}

fn file(sender: Sender, operation: &[u8], out: &mut [u8]) -> Wrote {
    let id = id_length(operation);
    let n = two_bytes(operation, 2 + id);
    let size = eight_bytes(operation, 4 + id + n);
    sender::file(
        sender,
        octets::part(operation, 2, id),
        octets::part(operation, 4 + id, n),
        size,
        out,
    )
}
