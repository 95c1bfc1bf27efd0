// Replays a recording: reads standard input to its end, allows every session at once, answers done
// always, and writes only replies. It answers before it reads on, since a client waits for its replies.
#![tactic(auto)]

mod console;

use command::Command;
use frames::Framing;
use protocol::Receiver;
use std::io::{Stdin, Stdout};
use streams::Run;

fn main(rt: HostRuntime) {
    replay(rt.stdin(), rt.stdout()).end(rt.stderr(), b"replay");
}

// A proved loop has to end, and nothing says that the input does. So the loop counts its turns, up
// to a number that no run uses up.
fn replay(input: Stdin, out: Stdout) -> Run {
    let mut piece = [0; 65536];
    let mut carry = [0; Framing::TEXT_LIMIT];
    let mut scratch = [0; Command::SCRATCH_ROOM];
    let mut reply = [0; console::REPLIES];
    let mut receiver = Receiver::fresh();
    for _ in 0..u64::MAX {
        let Some(n) = streams::read(input, &mut piece) else {
            return Run::NotRead;
        };
        if n == 0 {
            break;
        }
        let taken = console::take(
            receiver,
            Run::Well(out),
            &piece[..n],
            &mut carry,
            &mut scratch,
            &mut reply,
        );
        let run = console::flush(taken.onward, &reply);
        if !run.is_well() {
            return run;
        }
        receiver = taken.receiver;
    }
    Run::Well(out)
}
