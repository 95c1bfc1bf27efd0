// What a call answers: its refusals in their order, and the sender afterwards.
ghost use Rattle.std.specs.Prelude.{◌||◌, ◌≡◌, ltb};
ghost use Rattle.frames.specs.Stream.{text_limit};
ghost use Rattle.command.specs.Read.{scratch_room};
ghost use Rattle.command.specs.Write.{answered};
ghost use Rattle.sending.specs.Calls.{unwritten, wrote_by, unheard, listened_by};
ghost use Rattle.sender.specs.Gates.{gate_of};

use command::{Command, Refusal};
use command_writer::framed::FRAME_ROOM;
use frames::{Framing, Report, Scanned};
use protocol::refusals::{OUT_OF_TURN, OVER_LIMIT, SHORT_BUFFER};
use sending::{Heeded, Listened, News, Sender, Transfer, Wrote};

// The refusal of a call that writes, before the writer's: 9 of a short buffer, 17 of what is over a limit,
// 18 of an unready call.
#[tactic(auto, unfolding(crate::specs::Gates::gate_of))]
pub(crate) fn gate(len: usize, over: bool, ready: bool) -> Option<u8>
    ensures { result ≡ gate_of len over ready }
{
    if len < FRAME_ROOM {
        return Some(SHORT_BUFFER);
    }
    if over {
        return Some(OVER_LIMIT);
    }
    if ready { None } else { Some(OUT_OF_TURN) }
}

// Nothing is written and nothing changed.
pub(crate) fn refused(sender: Sender, number: u8) -> Wrote
    ensures { result ≡ unwritten sender number }
{
    Wrote {
        sender,
        writing: Err(number),
    }
}

// What the writer answered: the session goes on, or nothing is changed.
pub(crate) fn wrote(sender: Sender, next: Transfer, written: Result<usize, Refusal>) -> Wrote
    ensures { result ≡ wrote_by sender next (answered written) }
{
    match written {
        Ok(n) => Wrote {
            sender: Sender {
                transfer: next,
                ..sender
            },
            writing: Ok(n),
        },
        Err(refusal) => refused(sender, refusal.number()),
    }
}

// Whether a buffer is too short for a hear.
pub(crate) fn is_short(carry: usize, scratch: usize) -> bool
    ensures { result ≡ (ltb carry text_limit || ltb scratch scratch_room) }
{
    carry < Framing::TEXT_LIMIT || scratch < Command::SCRATCH_ROOM
}

// A hear that consumes nothing and changes nothing.
pub(crate) fn unheard(sender: Sender, number: u8) -> Listened
    ensures { result ≡ unheard sender number }
{
    Listened {
        sender,
        consumed: 0,
        report: Report::Nothing,
        news: News::Refused(number),
    }
}

// A hear's end, after its scan.
pub(crate) fn listened(scanned: Scanned, heeded: Heeded) -> Listened
    ensures { result ≡ listened_by scanned heeded }
{
    Listened {
        sender: Sender {
            framing: scanned.framing,
            transfer: heeded.transfer,
        },
        consumed: scanned.consumed,
        report: scanned.report,
        news: heeded.news,
    }
}
