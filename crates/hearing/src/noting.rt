// What is told of a command, noted: a row for a start, and a row and bytes for a part.
ghost use Rattle.std.specs.Prelude.{◌≡◌, ◌+◌, ◌≤◌};
ghost use Rattle.octets.specs.Outcome.{outcome};
ghost use Rattle.recordings.specs.Mend.{recording_limit};
ghost use Rattle.hearing.specs.Hearing.{is_regular};
ghost use Rattle.hearing.specs.Rows.{kind_number};
ghost use Rattle.hearing.specs.Rows.{place as placed};
ghost use Rattle.hearing.specs.Steps as Steps;

use crate::sighted::Sighted;
use crate::{Kind, Row};
use command::{FileType, Place};
use protocol::{Ask, Told};

// By what is told of a command: how many rows there are then. The rows' numbers and the bytes are lent each
// by itself: through a struct of the two each clause would be longer.
#[tactic(auto, unfolding(crate::specs::Steps::told_noted, crate::specs::Steps::ask_noted))]
pub(crate) fn told(
    told: Told,
    sighted: Sighted,
    rows: usize,
    events: &mut [usize],
    bytes: &mut [u8],
) -> usize
    requires { rows ≤ recording_limit }
    ensures { Steps.noted result events.new bytes.new
        ≡ Steps.told_noted told sighted.entry.command sighted.entry.from sighted.entry.scratch.now rows
        events.old bytes.old }
{
    match told {
        Told::Ask(Ask::Open) => start(sighted, rows, events),
        Told::Ask(Ask::Write(place) | Ask::WriteLast(place)) => {
            part(place, sighted, rows, events, bytes)
        }
        _ => rows,
    }
}

// "A directory has no start."
#[tactic(auto, unfolding(crate::specs::Steps::start_noted))]
fn start(sighted: Sighted, rows: usize, events: &mut [usize]) -> usize
    requires { rows ≤ recording_limit }
    ensures { outcome result events.new
        ≡ Steps.start_noted sighted.entry.command sighted.entry.from rows events.old }
{
    if !is_regular(sighted.command.file_type) {
        return rows;
    }
    put_row(events, rows, Kind::Start, sighted, 0);
    rows + 1
}

// A part, which stands at a place of the scratch.
#[tactic(auto, unfolding(crate::specs::Steps::part_noted))]
fn part(
    place: Place,
    sighted: Sighted,
    rows: usize,
    events: &mut [usize],
    bytes: &mut [u8],
) -> usize
    requires { rows ≤ recording_limit }
    ensures { Steps.noted result events.new bytes.new
        ≡ Steps.part_noted place sighted.entry.command sighted.entry.from sighted.entry.scratch.now rows
        events.old bytes.old }
{
    let bs = octets::part(sighted.scratch, place.start, place.len);
    octets::copy_at(bs, bytes, sighted.from);
    put_row(events, rows, Kind::Part, sighted, bs.len());
    rows + 1
}

fn is_regular(kind: FileType) -> bool
    ensures { result ≡ is_regular kind }
{
    matches!(kind, FileType::Regular)
}

// A row, where it fits: its kind, where the ids of the command stand in the recording, and where its
// part stands in the bytes.
#[tactic(auto, unfolding(crate::specs::Steps::with_row))]
fn put_row(events: &mut [usize], row: usize, kind: Kind, sighted: Sighted, len: usize)
    requires { row ≤ recording_limit }
    ensures { events.new
        ≡ Steps.with_row events.old row (kind_number kind) sighted.entry.from sighted.entry.command len }
{
    if octets::fits(row * Row::LEN, Row::LEN, events.len()) {
        let noted = Row {
            kind,
            id: moved(sighted.command.id, sighted.from),
            file_id: moved(sighted.command.file_id, sighted.from),
            part: Place {
                start: sighted.from,
                len,
            },
        };
        noted.write(events, row);
    }
}

// A place of a text, in the recording where that text starts at a place.
fn moved(place: Place, from: usize) -> Place
    requires { (place.start ≤ recording_limit) × (from ≤ recording_limit) }
    ensures { result ≡ placed (from + place.start) place.len }
{
    Place {
        start: from + place.start,
        len: place.len,
    }
}
