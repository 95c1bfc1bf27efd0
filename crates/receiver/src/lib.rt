// The console's calls on a receiver: feed, allow, deny, drop, done, failed, unlisted, and those that supply
// something in a receive session: list, list_failed, home, part, last_part.
//
// A call takes the receiver by value and answers with the receiver afterwards. Each is equal to its
// definition in `protocol`, for any receiver and any lent buffers, so what `protocol` proves of every
// list of calls holds of these. The text of a report is had from `frames::text`.
//
// Not here: opening and writing files, and sending the reply; these are the console's.
#![tactic(auto)]

pub mod acts;
pub mod replies;
pub mod supplies;

ghost use Rattle.std.specs.Prelude.{◌≡◌};
ghost use Rattle.octets.specs.Outcome.{outcome};
ghost use Rattle.protocol.specs.Calls.{feeding, feed_of, allow_of, deny_of, drop_of, done_of, failed_of, unlisted_of};
ghost use Rattle.protocol.specs.Machine.{ours};
ghost use Rattle.protocol.specs.Promises.{EveryCall};

use acts::act;
use protocol::refusals::{ASK_OWED, SHORT_BUFFER};
use protocol::{Answered, Decision, Failure, Fed, Receiver};
use replies::{answered, fed, guarded, is_short, refused};
pub use supplies::{home, last_part, list, list_failed, part};

// Takes one piece through the first thing to report. 9 and then 10 consume nothing. What every call
// promises by itself stands here too: a refused one changes nothing, a feed goes on, replies are short.
pub fn feed(
    receiver: Receiver,
    piece: &[u8],
    carry: &mut [u8],
    scratch: &mut [u8],
    reply: &mut [u8],
) -> Fed
    ensures reply_after { feeding result carry.new scratch.new reply.new
        ≡ feed_of receiver piece.now carry.old scratch.old reply.old }
    ensures every_call { EveryCall ours }
{
    if is_short(carry.len(), scratch.len(), reply.len()) {
        return refused(receiver, SHORT_BUFFER);
    }
    if receiver.table.owed.is_some() {
        return refused(receiver, ASK_OWED);
    }
    let scanned = frames::scan(receiver.framing, piece, carry);
    let text = frames::text(piece, carry, scanned.report);
    let done = act(receiver.table, scanned.report, text, scratch);
    fed(receiver.table, scanned, done, reply)
}

// The user lets the asked session with this id be open: reply OK.
#[tactic(auto, unfolding(protocol::specs::Calls::allow_of))]
pub fn allow(receiver: Receiver, id: &[u8], reply: &mut [u8]) -> Answered
    ensures { outcome result reply.new ≡ allow_of receiver id.now reply.old }
{
    guarded(
        receiver,
        sessions::decide(receiver.table, Decision::Allow, id),
        reply,
    )
}

// The user turns the asked session with this id away: reply EPERM.
#[tactic(auto, unfolding(protocol::specs::Calls::deny_of))]
pub fn deny(receiver: Receiver, id: &[u8], reply: &mut [u8]) -> Answered
    ensures { outcome result reply.new ≡ deny_of receiver id.now reply.old }
{
    guarded(
        receiver,
        sessions::decide(receiver.table, Decision::Deny, id),
        reply,
    )
}

// The console drops the session with this id, asked or open, and what it owed is cleared.
#[tactic(auto, unfolding(protocol::specs::Calls::drop_of))]
pub fn drop(receiver: Receiver, id: &[u8]) -> Answered
    ensures { result ≡ drop_of receiver id.now }
{
    answered(
        receiver,
        sessions::decide(receiver.table, Decision::Drop, id),
        0,
    )
}

// The console has done what it was asked last.
#[tactic(auto, unfolding(protocol::specs::Calls::done_of))]
pub fn done(receiver: Receiver, reply: &mut [u8]) -> Answered
    ensures { outcome result reply.new ≡ done_of receiver reply.old }
{
    guarded(receiver, sessions::done(receiver.table), reply)
}

// The console has failed to do what it was asked last.
#[tactic(auto, unfolding(protocol::specs::Calls::failed_of))]
pub fn failed(receiver: Receiver, failure: Failure, reply: &mut [u8]) -> Answered
    ensures { outcome result reply.new ≡ failed_of receiver failure reply.old }
{
    guarded(receiver, sessions::failed(receiver.table, failure), reply)
}

// The console calls the file that it was asked for "a directory or not listed": reply EINVAL.
#[tactic(auto, unfolding(protocol::specs::Calls::unlisted_of))]
pub fn unlisted(receiver: Receiver, reply: &mut [u8]) -> Answered
    ensures { outcome result reply.new ≡ unlisted_of receiver reply.old }
{
    guarded(receiver, sessions::unlisted(receiver.table), reply)
}
