// Commands that no text is, and the refusal that the writer gives each. Places past a buffer's end, a
// character outside a safe string, levels that `q` has not, numbers past signed 64 bits, a negative zero;
// of two fields at fault the first in writing order tells, and a missing action is told after both.
//
// The operands are numbers: 1 for the action send and 0 for none; start and length of the id, of `pw` and
// of `d`; `q`; 1 for a negative size and 0 for another, and its magnitude.
use crate::command_cases;
use crate::line::{after, asked, number, operands, printed};
use command::{Action, Command, Place};
use decimal::Number;
use streams::Run;

// `m`, `a b` and 33 times `i`: the text, and the scratch too.
const BYTES: [u8; 37] = *b"ma biiiiiiiiiiiiiiiiiiiiiiiiiiiiiiiii";

pub(crate) fn write(run: Run, s: &[u8]) -> Run {
    let bytes = BYTES;
    command_cases::write(asked(run, printed(s)), command(operands(s)), &bytes, &bytes)
}

fn command(action_on: &[u8]) -> Command {
    let id_on = after(action_on);
    let bypass_on = after(after(id_on));
    let payload_on = after(after(bypass_on));
    let quiet_on = after(after(payload_on));
    Command {
        action: action(number(action_on)),
        id: place(id_on),
        bypass: place(bypass_on),
        payload: place(payload_on),
        quiet: number(quiet_on),
        size: size(after(quiet_on)),
        ..Command::NONE
    }
}

fn action(n: u64) -> Action {
    if n == 0 { Action::None } else { Action::Send }
}

fn place(s: &[u8]) -> Place {
    Place {
        start: number(s) as usize,
        len: number(after(s)) as usize,
    }
}

fn size(s: &[u8]) -> Number {
    Number {
        negative: number(s) == 1,
        magnitude: number(after(s)),
    }
}
