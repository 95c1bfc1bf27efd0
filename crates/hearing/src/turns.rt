// The commands of a recording, one after another: each is obeyed, noted, and answered as `replay` does.
ghost use Rattle.std.specs.Prelude.{◌≡◌, ◌+◌, ◌≤◌, length};
ghost use Rattle.recordings.specs.Mend.{recording_limit};
ghost use Rattle.recordings.specs.Texts.{next_text};
ghost use Rattle.protocol.specs.Sessions.{decided_of};
ghost use Rattle.hearing.specs.Hearing.{answered_by};
ghost use Rattle.hearing.specs.Steps as Steps;

use crate::sighted::Sighted;
use crate::{Row, noting};
use command::Command;
use protocol::{Decision, Table, Told};
use recordings::texts::{TextSight, next_text};

// How far the hearing has come: the place, outside texts, where it goes on; how many rows there are; and
// the table of the receiver.
#[derive(Drop)]
pub struct Reached {
    pub at: usize,
    pub rows: usize,
    pub table: Table,
}

// The whole recording: how many numbers of `events` its rows take.
pub(crate) fn all(recording: &[u8], events: &mut [usize], bytes: &mut [u8]) -> usize
    requires { (length recording.now ≤ recording_limit)
        × (recording_limit ≤ length events.old) × (recording_limit ≤ length bytes.old) }
    ensures { Steps.AllHeard recording.now result events.new bytes.new }
{
    let mut scratch = [0u8; Command::SCRATCH_ROOM];
    let mut reached = Reached {
        at: 0,
        rows: 0,
        table: Table::EMPTY,
    };
    while reached.at < recording.len() {
        reached = turn(reached, recording, &mut scratch, events, bytes);
    }
    reached.rows * Row::LEN
}

// Past what stands next.
#[tactic(auto, unfolding(crate::specs::Steps::turn_of))]
fn turn(
    reached: Reached,
    recording: &[u8],
    scratch: &mut [u8],
    events: &mut [usize],
    bytes: &mut [u8],
) -> Reached
    requires { (reached.rows ≤ recording_limit) × (length recording.now ≤ recording_limit) }
    ensures { Steps.course result events.new bytes.new
        ≡ Steps.turn_of (next_text recording.now reached.at) reached recording.now scratch.old
        events.old bytes.old }
{
    match next_text(recording, reached.at) {
        TextSight::Outside(to) => Reached { at: to, ..reached },
        TextSight::Text(start, end) => {
            text(reached, recording, start, end, scratch, events, bytes)
        }
        TextSight::Abandoned(_, end) => Reached { at: end, ..reached },
    }
}

// A command text is read; a refused one does nothing.
#[tactic(auto, unfolding(crate::specs::Steps::text_turn))]
fn text(
    reached: Reached,
    recording: &[u8],
    start: usize,
    end: usize,
    scratch: &mut [u8],
    events: &mut [usize],
    bytes: &mut [u8],
) -> Reached
    requires { (reached.rows ≤ recording_limit) × (length recording.now ≤ recording_limit)
        × (start + 4 ≤ end) × (end ≤ length recording.now) }
    ensures { Steps.course result events.new bytes.new
        ≡ Steps.text_turn reached start end recording.now scratch.old events.old bytes.old }
{
    let from = start + 2;
    let text = &recording[from..end - 2];
    match command_reader::read(text, scratch) {
        Ok(command) => {
            let sighted = Sighted {
                command,
                from,
                text,
                scratch,
            };
            obeyed(reached, sighted, end, events, bytes)
        }
        Err(_) => Reached { at: end, ..reached },
    }
}

// A command, whose frame ends at a place, is obeyed, and what it tells is noted and answered.
#[tactic(auto, unfolding(crate::specs::Steps::command_turn))]
fn obeyed(
    reached: Reached,
    sighted: Sighted,
    end: usize,
    events: &mut [usize],
    bytes: &mut [u8],
) -> Reached
    requires { reached.rows ≤ recording_limit }
    ensures { Steps.course result events.new bytes.new
        ≡ Steps.command_turn reached sighted.entry.command sighted.entry.from end sighted.entry.text.now
        sighted.entry.scratch.now events.old bytes.old }
{
    let command = sighted.command;
    let next = sessions::obey(reached.table, command, sighted.text, sighted.scratch);
    let told = next.told;
    let rows = noting::told(told, sighted, reached.rows, events, bytes);
    let table = sessions::next::put(reached.table, next);
    let id = octets::part(sighted.text, command.id.start, command.id.len);
    Reached {
        at: end,
        rows,
        table: answered(table, told, id),
    }
}

// "with the console answers as the replay program gives them".
fn answered(table: Table, told: Told, id: &[u8]) -> Table
    ensures { result ≡ answered_by table id.now told }
{
    match told {
        Told::Asked | Told::LastPath => allowed(table, id),
        Told::Ask(_) => sessions::next::put(table, sessions::done(table)),
        _ => table,
    }
}

fn allowed(table: Table, id: &[u8]) -> Table
    ensures { result ≡ (decided_of table Decision.Allow id.now).table }
{
    sessions::next::put(table, sessions::decide(table, Decision::Allow, id))
}
