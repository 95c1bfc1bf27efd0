// The walk over the rows of both sides. It counts the lines, and stores each where the list has room for
// it: one walk with no room measures, and a second one stores.
ghost use Rattle.std.specs.Prelude.{◌≡◌, [], ◌+◌, ◌*◌, ◌≤◌, length};
ghost use Rattle.octets.specs.Outcome.{outcome};
ghost use Rattle.recordings.specs.Mend.{recording_limit};
ghost use Rattle.windows.specs.Ranks.{first_lines, second_lines};
ghost use Rattle.windows.specs.Steps as Steps;
ghost use Rattle.windows.specs.Steps.{heard, Laid, Writes, starts_in, lines_between};

use crate::side::Side;
use crate::{Judgement, Line, matching, verdicts};
use hearing::Row;

// All lines: the first's starts in order, then those only the second has, in order.
pub(crate) fn list(
    first: Side,
    second: Side,
    a: &mut [u8],
    b: &mut [u8],
    list: &mut [usize],
) -> usize
    requires { Laid (heard first) (length a.old) × Laid (heard second) (length b.old) }
    ensures { (result ≤ recording_limit + recording_limit)
        × Writes (lines_between (heard first.entry) (heard second.entry)) 0 list.old result list.new }
{
    let lines = firsts(first, second, a, b, list);
    seconds(first, second, list, lines)
}

// The lines of the first's starts.
fn firsts(first: Side, second: Side, a: &mut [u8], b: &mut [u8], list: &mut [usize]) -> usize
    requires { Laid (heard first) (length a.old) × Laid (heard second) (length b.old) }
    ensures { (result ≤ recording_limit) × Writes (first_lines []
        (starts_in (heard first.entry)) (starts_in (heard second.entry)))
        0 list.old result list.new }
{
    let mut line = 0;
    for row in 0..first.rows() {
        line = first_row(first, row, second, a, b, list, line);
    }
    line
}

// Past a row of the first: a line where it is a start. What is found of it is asked only where the line
// has room.
#[tactic(auto, unfolding(crate::specs::Steps::first_row, crate::specs::Steps::with_line))]
fn first_row(
    first: Side,
    row: usize,
    second: Side,
    a: &mut [u8],
    b: &mut [u8],
    list: &mut [usize],
    line: usize,
) -> usize
    requires { (row * 7 + 7 ≤ length first.events.now)
        × Laid (heard first) (length a.old) × Laid (heard second) (length b.old)
        × (line ≤ recording_limit) }
    ensures { outcome result list.new
        ≡ Steps.first_row (heard first.entry) (heard second.entry) (row * 7) list.old line }
{
    let start = first.row(row);
    if !start.is_start() {
        return line;
    }
    if octets::fits(line * Line::LEN, Line::LEN, list.len()) {
        let found = verdicts::judge(first, row, second, a, b);
        line_of(start, found).write(list, line);
    }
    line + 1
}

// The lines of the starts that only the second has, from a line on.
//
// This walk and the first's stay two: a step as a closure would change the two buffers that it captures, and
// of such calls the loop's proof would know nothing.
fn seconds(first: Side, second: Side, list: &mut [usize], from: usize) -> usize
    requires { (length second.events.now ≤ recording_limit) × (from ≤ recording_limit) }
    ensures { (result ≤ recording_limit + recording_limit) × Writes (second_lines []
        (starts_in (heard second.entry)) (starts_in (heard first.entry)))
        from list.old result list.new }
{
    let mut line = from;
    for row in 0..second.rows() {
        line = second_row(first, second, row, list, line);
    }
    line
}

// Past a row of the second: a line where it is a start that only the second has.
#[tactic(auto, unfolding(crate::specs::Steps::second_row, crate::specs::Steps::with_line))]
fn second_row(first: Side, second: Side, row: usize, list: &mut [usize], line: usize) -> usize
    requires { (row * 7 + 7 ≤ length second.events.now) × (line ≤ recording_limit + recording_limit) }
    ensures { outcome result list.new
        ≡ Steps.second_row (heard first.entry) (heard second.entry) (row * 7) list.old line }
{
    let start = second.row(row);
    if !start.is_start() || !matching::is_left(first, second, row) {
        return line;
    }
    if octets::fits(line * Line::LEN, Line::LEN, list.len()) {
        line_of(start, Judgement::OnlySecond).write(list, line);
    }
    line + 1
}

// What was found of a start, and where the two ids of its row stand.
fn line_of(start: Row, found: Judgement) -> Line
    ensures { result ≡ Steps.line_with found start }
{
    Line {
        found,
        id: start.id,
        file_id: start.file_id,
    }
}
