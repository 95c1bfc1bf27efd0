// A console with one session, m: feeds the session's commands, allows it, and answers done to every ask.
use crate::ROOM;
use command::Command;
use frames::Framing;
use protocol::{Answered, Receiver, Reply};
use streams::Run;

// How the run stands, and the receiver.
#[derive(Clone, Copy)]
pub struct Console {
    pub run: Run,
    pub receiver: Receiver,
}

// A fresh receiver, the session allowed.
pub(crate) fn fresh(run: Run) -> Console {
    let state = Console {
        run,
        receiver: Receiver::fresh(),
    };
    play(state, b"ac=send", b"", false)
}

// The session canceled, sent and allowed anew.
pub(crate) fn again(state: Console) -> Console {
    let canceled = play(state, b"ac=cancel", b"", false);
    play(canceled, b"ac=send", b"", false)
}

// The command of some fields and a value after them, its reply printed or not.
pub(crate) fn play<'a>(before: Console, fields: &'a [u8], value: &'a [u8], shown: bool) -> Console {
    let mut frame = [0u8; ROOM];
    let mut reply = [0u8; Reply::ROOM];
    let end = framed(fields, value, &mut frame).unwrap_or(0);
    let answered = feed(before.receiver, octets::part(&frame, 0, end), &mut reply);
    let text = octets::part(&reply, 0, answered.reply_len);
    Console {
        run: tell(before.run, shown, text),
        receiver: answered.receiver,
    }
}

// The session's first file record with another count.
pub(crate) fn with_count(state: Console, n: u64) -> Console {
    let mut receiver = state.receiver;
    receiver.table.sessions[0].files[0].count = n;
    Console { receiver, ..state }
}

// Feeds a piece, says done, and allows the session: what was not asked is refused, and changes nothing.
// The reply is the feed's, or else the answer's: a feed that asks has none.
fn feed(receiver: Receiver, piece: &[u8], reply: &mut [u8]) -> Answered {
    let mut carry = [0u8; Framing::TEXT_LIMIT];
    let mut scratch = [0u8; Command::SCRATCH_ROOM];
    let fed = receiver::feed(receiver, piece, &mut carry, &mut scratch, reply);
    let done = receiver::done(fed.receiver, reply);
    let allowed = receiver::allow(done.receiver, b"m", reply);
    Answered {
        reply_len: first(fed.reply_len, done.reply_len),
        ..allowed
    }
}

// Of two lengths of replies, each 0 for no reply as `reply_len` is.
fn first(n: usize, m: usize) -> usize {
    if n > 0 { n } else { m }
}

// Stores the command's frame, and says where it ends: none where it has no room.
fn framed<'a>(fields: &'a [u8], value: &'a [u8], frame: &mut [u8]) -> Option<usize> {
    let begun = octets::copy_at(b"\x1B]5113;id=m;", frame, 0)?;
    let named = octets::copy_at(fields, frame, begun)?;
    let ended = octets::copy_at(value, frame, named)?;
    octets::copy_at(b"\x1B\\", frame, ended)
}

// A blank, and the status word of a reply's frame and its size if it has one, `-` for no reply.
fn tell(run: Run, shown: bool, frame: &[u8]) -> Run {
    if !shown {
        return run;
    }
    if frame.is_empty() {
        return run.text(b" -");
    }
    let mut scratch = [0u8; Command::SCRATCH_ROOM];
    let text = octets::part(frame, 2, frame.len().saturating_sub(4));
    match command_reader::read(text, &mut scratch) {
        Ok(c) => status(run.text(b" "), c, &scratch),
        Err(_) => run.text(b" no command"),
    }
}

fn status(run: Run, c: Command, scratch: &[u8]) -> Run {
    let place = c.status;
    let told = run.text(octets::part(scratch, place.start, place.len));
    if c.size.magnitude == 0 {
        return told;
    }
    told.text(b"=").number(c.size.magnitude as usize)
}
