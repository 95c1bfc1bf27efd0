// The line: what comes is fed and answered, one text at a time, before more is read, since an office
// waits for its answers.
use crate::console::{Console, put};
use crate::current::Current;
use crate::plans::{Plan, Planned};
use crate::{listing, plans, requests};
use command::{Command, Place};
use frames::Framing;
use protocol::{Answered, Fed, Receiver, Reply, Told};
use std::io::Stderr;
use streams::Run;

// The console, and the session that has its turn, if one has.
#[derive(Clone, Copy)]
pub struct Server {
    pub console: Console,
    pub current: Option<Current>,
}

// A proved loop has to end, and nothing says that the input does. So the loop's turns are counted, up to a
// number that no run uses up.
pub(crate) fn run(rt: &HostRuntime) -> Run {
    let mut input = [0u8; 65536];
    let mut carry = [0u8; Framing::TEXT_LIMIT];
    let mut server = Server {
        console: Console {
            receiver: Receiver::fresh(),
            run: Run::Well(rt.stdout()),
        },
        current: None,
    };
    for _ in 0..u64::MAX {
        let Some(n) = streams::read(rt.stdin(), &mut input) else {
            return Run::NotRead;
        };
        if n == 0 {
            break;
        }
        take(rt, &mut server, &input[..n], &mut carry);
        if !server.console.run.is_well() {
            break;
        }
    }
    server.console.run
}

// Feeds a piece until it is consumed or something fails. A feed consumes a byte at least. The server is
// lent: given and taken by value it stood in the stack several times, 40 KB in all.
fn take(rt: &HostRuntime, server: &mut Server, piece: &[u8], carry: &mut [u8]) {
    let mut left = piece;
    for _ in 0..piece.len() {
        if left.is_empty() || !server.console.run.is_well() {
            break;
        }
        let consumed = hear(rt, server, left, carry);
        left = &left[consumed.min(left.len())..];
    }
}

// Feeds what is left of a piece through the first thing to report, answers that, and says how many bytes
// were consumed.
fn hear(rt: &HostRuntime, server: &mut Server, left: &[u8], carry: &mut [u8]) -> usize {
    let mut scratch = [0u8; Command::SCRATCH_ROOM];
    let mut reply = [0u8; Reply::ROOM];
    let fed = receiver::feed(
        server.console.receiver,
        left,
        carry,
        &mut scratch,
        &mut reply,
    );
    server.console = sent(rt.stderr(), server.console, fed, &reply);
    let text = frames::text(left, carry, fed.report);
    heed(rt, server, fed.told, fed.command, text, &scratch);
    fed.consumed
}

// After a feed: its reply is written. One that consumes nothing would be made for ever.
fn sent(err: Stderr, console: Console, fed: Fed, reply: &[u8]) -> Console {
    if fed.consumed == 0 {
        return Console {
            receiver: fed.receiver,
            run: Run::Stuck,
        };
    }
    let answered = Answered {
        receiver: fed.receiver,
        told: fed.told,
        reply_len: fed.reply_len,
    };
    put(err, console, answered, reply)
}

// What is told of a command is answered. Its ids stand in the text, and its name in the scratch.
fn heed<'a>(
    rt: &HostRuntime,
    server: &mut Server,
    told: Told,
    command: Command,
    text: &'a [u8],
    scratch: &'a [u8],
) {
    let id = at_place(text, command.id);
    let Planned { current, plan } = plans::heed(
        rt,
        server.current,
        told,
        command.transmission,
        id,
        at_place(text, command.file_id),
        at_place(scratch, command.name),
    );
    server.current = current;
    server.console = answer(rt, server.console, plan, id);
}

fn at_place(s: &[u8], place: Place) -> &[u8] {
    octets::part(s, place.start, place.len)
}

fn answer(rt: &HostRuntime, console: Console, plan: Plan, id: &[u8]) -> Console {
    match plan {
        Plan::Rest => console,
        Plan::Deny => listing::deny(rt.stderr(), console, id),
        Plan::Open(current) => listing::open(rt, console, current),
        Plan::Supply(k) => requests::supply(rt, console, k),
        Plan::Unlisted => requests::unlisted(rt.stderr(), console),
    }
}
