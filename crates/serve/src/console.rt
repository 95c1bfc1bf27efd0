// The receiver, and what is written for it.
use crate::report;
use command_writer::framed::FRAME_ROOM;
use protocol::{Answered, Receiver, Told};
use std::io::Stderr;
use streams::Run;
use supplying::Supplying;

// The receiver, and how the run stands.
#[derive(Clone, Copy)]
pub struct Console {
    pub receiver: Receiver,
    pub run: Run,
}

// The receiver after a call. What it wrote stands at the start of the buffer, and is written before
// anything else is done.
pub(crate) fn put(err: Stderr, console: Console, answered: Answered, buffer: &[u8]) -> Console {
    say_refused(err, answered.told);
    Console {
        receiver: answered.receiver,
        run: console
            .run
            .text(octets::part(buffer, 0, answered.reply_len)),
    }
}

// What is supplied in a receive session goes to the line in one frame.
pub(crate) fn supply<'a>(
    err: Stderr,
    console: Console,
    supplying: Supplying,
    text: &'a [u8],
    contents: &'a [u8],
) -> Console {
    let mut out = [0u8; FRAME_ROOM];
    let answered = receiver::supplies::supply(
        console.receiver,
        supplying,
        text,
        contents,
        &mut out,
    );
    put(err, console, answered, &out)
}

// A text that is no command is said. No other call that is made here is refused.
fn say_refused(err: Stderr, told: Told) {
    if let Told::Refused(n) = told {
        report::counted(err, b"refused ", u64::from(n));
    }
}
