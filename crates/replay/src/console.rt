// The console of a replay: it allows a session that waits for the user, and answers done to whatever is
// asked. It supplies nothing, so no receive session comes to ask for a file. The receiver lies in one
// place for a whole piece, and is lent to each call.
//
// The replies of a piece are collected and written together, since a write for each costs more than the
// reply itself. The receiver stores a reply in the first Reply::ROOM bytes of the reply buffer; behind
// them the replies of before wait, in their order.
ghost use Rattle.std.specs.Prelude.{◌≡◌, true, ◌-◌, ◌≤◌, length, drop};
ghost use Rattle.protocol.specs.Calls.{feed_of};
ghost use Rattle.streams.specs.Streams.{is_well, Keeps};
ghost use Rattle.replay.specs.Plans.{call_for, LeftByTurn};
ghost use Rattle.replay.specs.Pieces.{OnAfter, Takes};

use protocol::{Receiver, Reply, Told};
use receiver_in_place::{Call, FedInPlace};
use streams::Run;

// How long the reply buffer is: a reply, and room for those that wait. A piece of 64 KB holds about 90
// commands with 512 bytes of data each; their replies are about 5 KB.
pub(crate) const REPLIES: usize = Reply::ROOM + 8192;

// The receiver after a piece, and how the piece ended.
#[derive(Clone, Copy)]
pub struct Taken {
    pub receiver: Receiver,
    pub onward: Onward,
}

// Where a piece goes on, how the run stands, and where the replies that wait end in the reply buffer.
// Where something failed, the piece goes on at its end.
#[derive(Clone, Copy)]
pub struct Onward {
    pub at: usize,
    pub run: Run,
    pub replies_end: usize,
}

// What follows a feed: the call to answer with, if anything is to answer, and where the piece goes on then.
#[derive(Clone, Copy)]
pub struct Plan {
    pub call: Option<Call>,
    pub onward: Onward,
}

// ---- What makes or passes on a `&mut Receiver` decides nothing.
// Feeds a piece until it is consumed or something fails. Replies may still wait then. Where the run is
// well, that was a replay of the whole piece.
pub(crate) fn take<'p, 'b>(
    before: Receiver,
    run: Run,
    piece: &'p [u8],
    carry: &'b mut [u8],
    scratch: &'b mut [u8],
    reply: &'b mut [u8],
) -> Taken
    ensures { Takes piece.now reply.old before carry.old result.onward.run
        result.receiver carry.new }
{
    let mut receiver = before;
    let mut onward = Onward {
        at: 0,
        run,
        replies_end: Reply::ROOM,
    };
    while onward.at < piece.len() {
        onward = turn(&mut receiver, piece, onward, carry, scratch, reply);
    }
    Taken { receiver, onward }
}

// Feeds a piece from a place on through the first thing to report, and answers that as `answers_to` says.
// At least one byte less is left.
fn turn<'r, 'p, 'b>(
    receiver: &'r mut Receiver,
    piece: &'p [u8],
    onward: Onward,
    carry: &'b mut [u8],
    scratch: &'b mut [u8],
    reply: &'b mut [u8],
) -> Onward
    ensures { (length piece.now - result.at ≤ (length piece.now - onward.at) - 1)
        × (let left = drop onward.at piece.now in
        let f = feed_of receiver.old left carry.old scratch.old reply.old in
        LeftByTurn receiver.new carry.new scratch.new left f
        × OnAfter (length piece.now) f.fed.consumed onward result) }
{
    let left = rest(piece, onward.at);
    let fed = receiver_in_place::feed(receiver, left, carry, scratch, reply);
    let plan = planned(fed, onward, piece.len(), reply);
    let Some(call) = plan.call else {
        return plan.onward;
    };
    let answered = receiver_in_place::answer_for(receiver, call, fed, left, carry, reply);
    finish(plan.onward, answered.reply_len, piece.len(), reply)
}

// ---- What is decided and written.
// What of a piece is left at a place.
fn rest(piece: &[u8], at: usize) -> &[u8]
    ensures { result.now ≡ drop at piece.now }
{
    &piece[at.min(piece.len())..]
}

// Sends the feed's reply, and plans what follows.
fn planned(fed: FedInPlace, onward: Onward, len: usize, reply: &mut [u8]) -> Plan
    ensures { (len - result.onward.at ≤ (len - onward.at) - 1) × (result.call ≡ call_for fed.told)
        × OnAfter len fed.consumed onward result.onward }
{
    let sent = send(onward, fed.reply_len, reply);
    Plan {
        call: call_for(fed.told),
        onward: moved(sent, fed.consumed, len),
    }
}

// The call that answers; none, where nothing is to answer.
fn call_for(told: Told) -> Option<Call>
    ensures { result ≡ call_for told }
{
    match told {
        Told::Asked => Some(Call::Allow),
        Told::LastPath => Some(Call::Allow),
        Told::Ask(_) => Some(Call::Done),
        _ => None,
    }
}

// Sends an answer's reply.
fn finish(onward: Onward, n: usize, len: usize, reply: &mut [u8]) -> Onward
    ensures { (len - result.at ≤ len - onward.at)
        × (is_well result.run ≡ true → (is_well onward.run ≡ true) × (result.at ≡ onward.at)) }
{
    let sent = send(onward, n, reply);
    if sent.run.is_well() {
        return sent;
    }
    Onward { at: len, ..sent }
}

// After so many bytes used at a place: the place behind them, or the end where the run failed or nothing
// was used.
fn moved(onward: Onward, used: usize, len: usize) -> Onward
    ensures { (len - result.at ≤ (len - onward.at) - 1) × OnAfter len used onward result }
{
    if !onward.run.is_well() {
        return Onward { at: len, ..onward };
    }
    if used == 0 {
        return Onward {
            at: len,
            run: Run::Stuck,
            ..onward
        };
    }
    Onward {
        at: onward.at.saturating_add(used).min(len),
        ..onward
    }
}

// Puts a reply of n bytes behind those that wait. Where no room is left there, all are written.
fn send(onward: Onward, n: usize, reply: &mut [u8]) -> Onward
    ensures { (result.at ≡ onward.at) × Keeps onward.run result.run }
{
    let Some(end) = put_by(reply, onward.replies_end, n) else {
        let run = flush(onward, reply);
        return Onward {
            run: run.text(octets::part(reply, 0, n)),
            replies_end: Reply::ROOM,
            ..onward
        };
    };
    Onward {
        replies_end: end,
        ..onward
    }
}

// Copies the reply of n bytes to a place behind it, and says where it ends there.
fn put_by(reply: &mut [u8], at: usize, n: usize) -> Option<usize> {
    if reply.len() < Reply::ROOM {
        return None;
    }
    let (last, waiting) = reply.split_at_mut(Reply::ROOM);
    let end = octets::copy_at(
        octets::part(last, 0, n),
        waiting,
        at.saturating_sub(Reply::ROOM),
    )?;
    Some(Reply::ROOM.saturating_add(end))
}

// Writes the replies that wait.
pub(crate) fn flush(onward: Onward, reply: &[u8]) -> Run
    ensures { Keeps onward.run result }
{
    let waiting = onward.replies_end.saturating_sub(Reply::ROOM);
    onward.run.text(octets::part(reply, Reply::ROOM, waiting))
}
