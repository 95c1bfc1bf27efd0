// A step's end: its reply stored in the lent buffer, and the answer put together.
ghost use Rattle.std.specs.Prelude.{◌||◌, ◌≡◌, ltb};
ghost use Rattle.octets.specs.Outcome.{outcome};
ghost use Rattle.frames.specs.Stream.{text_limit};
ghost use Rattle.command.specs.Read.{scratch_room};
ghost use Rattle.protocol.specs.Calls as Calls;
ghost use Rattle.protocol.specs.Replies.{reply_room};
ghost use Rattle.sessions.specs.Leaving.{taken};
ghost use Rattle.receiver.specs.Fed.{fed_with};

use crate::acts::Acted;
use command::Command;
use frames::{Framing, Report, Scanned};
use protocol::refusals::SHORT_BUFFER;
use protocol::{Answered, Fed, Receiver, Reply, Table, Told};
use sessions::next::{Next, put};

// Whether a buffer is too short for a feed.
pub fn is_short(carry: usize, scratch: usize, reply: usize) -> bool
    ensures { result ≡ (ltb carry text_limit || (ltb scratch scratch_room || ltb reply reply_room)) }
{
    carry < Framing::TEXT_LIMIT || scratch < Command::SCRATCH_ROOM || reply < Reply::ROOM
}

// A feed that consumes nothing and changes nothing.
pub(crate) fn refused(receiver: Receiver, number: u8) -> Fed
    ensures { result ≡ Calls.feed_refused receiver number }
{
    Fed {
        receiver,
        consumed: 0,
        report: Report::Nothing,
        told: Told::Refused(number),
        command: Command::NONE,
        reply_len: 0,
    }
}

// A feed's end, after its scan and its act.
#[tactic(auto, unfolding(crate::specs::Fed::fed_with))]
pub(crate) fn fed(table: Table, scanned: Scanned, acted: Acted, buffer: &mut [u8]) -> Fed
    ensures { outcome result buffer.new ≡ fed_with scanned (taken table acted.next) acted.command buffer.old }
{
    let reply_len = reply::send(acted.next.reply, buffer);
    Fed {
        receiver: Receiver {
            framing: scanned.framing,
            table: put(table, acted.next),
        },
        consumed: scanned.consumed,
        report: scanned.report,
        told: acted.next.told,
        command: acted.command,
        reply_len,
    }
}

// A console call's end: refusal 9 where the buffer is too short, else the step with its reply stored.
#[tactic(auto, unfolding(protocol::specs::Calls::guarded))]
pub(crate) fn guarded(receiver: Receiver, next: Next, buffer: &mut [u8]) -> Answered
    ensures { outcome result buffer.new ≡ Calls.guarded receiver (taken receiver.table next) buffer.old }
{
    if buffer.len() < Reply::ROOM {
        return Answered {
            receiver,
            told: Told::Refused(SHORT_BUFFER),
            reply_len: 0,
        };
    }
    let reply_len = reply::send(next.reply, buffer);
    answered(receiver, next, reply_len)
}

pub(crate) fn answered(receiver: Receiver, next: Next, reply_len: usize) -> Answered
    ensures { result ≡ Calls.answered_by receiver.framing (taken receiver.table next) reply_len }
{
    Answered {
        receiver: Receiver {
            framing: receiver.framing,
            table: put(receiver.table, next),
        },
        told: next.told,
        reply_len,
    }
}
